// The numbers of a text, under the names of the certificate.
ghost use Rattle.std.specs.Prelude.{◌≡◌};
ghost use Rattle.certificate_text.specs.Content.{content_in, said_by};

use certificate::fields::{CharacteristicValues, Fields, Geometry, PartialFactors, StrengthFactor};

#[derive(Drop)]
pub struct CertificateText {
    pub(crate) edition: u8, // any byte: the writer asks it
    pub(crate) geometry: Geometry,
    pub(crate) values: CharacteristicValues,
    pub(crate) factors: PartialFactors,
    pub(crate) cracked: Vec<StrengthFactor>,
    pub(crate) uncracked: Vec<StrengthFactor>,
}

impl CertificateText {
    // All that is to be written into a certificate.
    pub fn fields(&self) -> Fields<'_>
        ensures { said_by result ≡ content_in self.now }
    {
        Fields {
            edition: self.edition,
            geometry: self.geometry,
            values: self.values,
            factors: self.factors,
            cracked: self.cracked.as_slice(),
            uncracked: self.uncracked.as_slice(),
        }
    }
}
