// Reading a certificate, and what it says.
ghost use Rattle.std.specs.Prelude.{◌≡◌};
ghost use Rattle.certificate.specs.Layout.{offset, section_of};
ghost use Rattle.certificate.specs.Content.{edition_of, geometry_of, values_of, factors_of, reading, read_as, HeldBy};
ghost use Rattle.certificate.specs.Lookup.{list_section};
ghost use Rattle.certificate.specs.Ranges.{GeometryInRange, ValuesInRange, FactorsInRange, ListInRange};

use crate::asking::ask_certificate;
use crate::bytes::byte_at;
use crate::certificate::Certificate;
use crate::decode::{factors_in, geometry_in, values_in};
use crate::fault::CertificateFault;
use crate::fields::{CharacteristicValues, Edition, Geometry, PartialFactors};
use crate::layout::{Section, part_of};
use crate::lookup::Concrete;
use crate::part::Part;

impl<'a> Certificate<'a> {
    // The certificate in these bytes. Refused by the first question that fails.
    pub fn read(bytes: &'a [u8]) -> Result<Certificate<'a>, CertificateFault>
        ensures reading { read_as result ≡ reading bytes.now }
        ensures held { HeldBy result bytes.now }
    {
        ask_certificate(bytes)?;
        Ok(Certificate { bytes })
    }

    // The edition by which the channel is rated.
    pub fn edition(&self) -> Edition
        ensures { result ≡ edition_of self.now.bytes.now }
    {
        Edition::try_from(byte_at(self.bytes, 0)).unwrap() // the head was asked
    }

    // A section as a part of the caller's bytes, with its place among them.
    pub fn section(&self, section: Section) -> Part<'a>
        ensures place { result.place ≡ offset self.now.bytes.now section }
        ensures bytes { result.bytes.now ≡ section_of self.now.bytes.now section }
    {
        part_of(self.bytes, section)
    }

    // The numbers of the first section.
    pub fn geometry(&self) -> Geometry
        ensures value { result ≡ geometry_of (section_of self.now.bytes.now Section.Geometry) }
        ensures lawful { GeometryInRange result }
    {
        geometry_in(self.section(Section::Geometry).bytes)
    }

    // The characteristic values, the first part of the second section.
    pub fn values(&self) -> CharacteristicValues
        ensures value { result ≡ values_of (section_of self.now.bytes.now Section.Resistance) }
        ensures lawful { ValuesInRange result }
    {
        values_in(self.section(Section::Resistance).bytes)
    }

    // The partial factors, the second part of the second section.
    pub fn factors(&self) -> PartialFactors
        ensures value { result ≡ factors_of (section_of self.now.bytes.now Section.Resistance) }
        ensures lawful { FactorsInRange result }
    {
        factors_in(self.section(Section::Resistance).bytes)
    }

    // The list of strength classes for this state of the concrete, as a part of the caller's bytes.
    pub fn strengths(&self, concrete: Concrete) -> Part<'a>
        ensures place { result.place ≡ offset self.now.bytes.now (list_section concrete) }
        ensures bytes { result.bytes.now ≡ section_of self.now.bytes.now (list_section concrete) }
        ensures lawful { ListInRange result.bytes.now }
    {
        self.section(Section::from(concrete))
    }
}
