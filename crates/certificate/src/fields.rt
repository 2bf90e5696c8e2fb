// What a certificate says: plain numbers under the names of the trade.
ghost use Rattle.std.specs.Prelude.{◌≡◌};
ghost use Rattle.certificate.specs.Editions.{edition_byte, edition_named};

use crate::fault::{CertificateFault, Question};

// The rules by which a certificate is rated.
#[derive(Clone, Copy)]
pub enum Edition {
    First,
    Second,
}

impl From<Edition> for u8 {
    ghost from_gives = { λ edition byte. byte ≡ edition_byte edition };

    fn from(edition: Edition) -> u8 {
        match edition {
            Edition::First => 1,
            Edition::Second => 2,
        }
    }
}

// An edition is named by byte 0 of a certificate.
impl TryFrom<u8> for Edition {
    type Error = CertificateFault;

    ghost try_from_gives = { λ byte r. r ≡ edition_named byte };

    fn try_from(byte: u8) -> Result<Edition, CertificateFault> {
        match byte {
            1 => Ok(Edition::First),
            2 => Ok(Edition::Second),
            _ => Err(Question::Header.at(0)),
        }
    }
}

// Lengths in tenths of a millimetre, factors k in tenths, the moment of inertia in mm⁴.
#[derive(Clone, Copy)]
pub struct Geometry {
    pub embedment_depth: u16,
    pub channel_width: u16,
    pub channel_height: u16,
    pub cone_factor_cracked: u16,
    pub cone_factor_uncracked: u16,
    pub edge_factor_cracked: u16,
    pub edge_factor_uncracked: u16,
    pub pryout_factor: u16,
    pub lip_spacing_tension: u16,
    pub lip_spacing_shear: u16,
    pub moment_of_inertia: u32,
}

// Characteristic values in N, flexure in Nm; 0 for anchor or connection in shear, as the file has it: there is
// nothing to verify.
#[derive(Clone, Copy)]
pub struct CharacteristicValues {
    pub anchor: u32,
    pub connection: u32,
    pub lip: u32,
    pub bolt: u32,
    pub flexure: u32,
    pub pullout: u32,
    pub bolt_shear: u32,
    pub lip_shear: u32,
    pub anchor_shear: u32,
    pub connection_shear: u32,
}

// Partial factors in hundredths.
#[derive(Clone, Copy)]
pub struct PartialFactors {
    pub anchor: u16,
    pub connection: u16,
    pub lip: u16,
    pub bolt: u16,
    pub flexure: u16,
    pub bolt_shear: u16,
    pub lip_shear: u16,
    pub anchor_shear: u16,
    pub connection_shear: u16,
    pub concrete: u16,
}

// A strength class in N/mm², and the factor on the pull-out value in hundredths.
#[derive(Clone, Copy)]
pub struct StrengthFactor {
    pub strength: u16,
    pub factor: u16,
}

// All that is written into a certificate.
#[derive(Clone, Copy)]
pub struct Fields<'a> {
    // A byte that names no edition may be handed in: the writer refuses it.
    pub edition: u8,
    pub geometry: Geometry,
    pub values: CharacteristicValues,
    pub factors: PartialFactors,
    pub cracked: &'a [StrengthFactor],
    pub uncracked: &'a [StrengthFactor],
}
