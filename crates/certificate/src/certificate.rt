// A certificate that has been read: the caller's own bytes, of which every question was answered yes.
ghost use Rattle.std.specs.Prelude.{◌≡◌, Ok};
ghost use Rattle.certificate.specs.Reading.{refusal};

pub(crate) mod methods;

#[derive(Clone, Copy)]
pub struct Certificate<'a> {
    bytes: &'a [u8],
    ghost accepted: { refusal bytes.now ≡ Ok tt },
}
