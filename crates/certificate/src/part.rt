// A part of the caller's bytes, with its place among them.
ghost use Rattle.std.specs.Prelude.{◌≤◌, length};

#[derive(Clone, Copy)]
pub struct Part<'a> {
    pub place: usize,
    pub bytes: &'a [u8],
    ghost near: { place ≤ 65535 },
    ghost short: { length bytes.now ≤ 65535 },
}
