// The numbers of a section, taken from its bytes.
ghost use Rattle.std.specs.Prelude.{◌≡◌};
ghost use Rattle.certificate.specs.Content.{geometry_of, values_of, factors_of};

use crate::bytes::{u16_at, u32_at};
use crate::fields::{CharacteristicValues, Geometry, PartialFactors};

pub(crate) fn geometry_in(section: &[u8]) -> Geometry
    ensures { result ≡ geometry_of section.now }
{
    Geometry {
        embedment_depth: u16_at(section, 0),
        channel_width: u16_at(section, 2),
        channel_height: u16_at(section, 4),
        cone_factor_cracked: u16_at(section, 6),
        cone_factor_uncracked: u16_at(section, 8),
        edge_factor_cracked: u16_at(section, 10),
        edge_factor_uncracked: u16_at(section, 12),
        pryout_factor: u16_at(section, 14),
        lip_spacing_tension: u16_at(section, 16),
        lip_spacing_shear: u16_at(section, 18),
        moment_of_inertia: u32_at(section, 20),
    }
}

pub(crate) fn values_in(section: &[u8]) -> CharacteristicValues
    ensures { result ≡ values_of section.now }
{
    CharacteristicValues {
        anchor: u32_at(section, 0),
        connection: u32_at(section, 4),
        lip: u32_at(section, 8),
        bolt: u32_at(section, 12),
        flexure: u32_at(section, 16),
        pullout: u32_at(section, 20),
        bolt_shear: u32_at(section, 24),
        lip_shear: u32_at(section, 28),
        anchor_shear: u32_at(section, 32),
        connection_shear: u32_at(section, 36),
    }
}

pub(crate) fn factors_in(section: &[u8]) -> PartialFactors
    ensures { result ≡ factors_of section.now }
{
    PartialFactors {
        anchor: u16_at(section, 40),
        connection: u16_at(section, 42),
        lip: u16_at(section, 44),
        bolt: u16_at(section, 46),
        flexure: u16_at(section, 48),
        bolt_shear: u16_at(section, 50),
        lip_shear: u16_at(section, 52),
        anchor_shear: u16_at(section, 54),
        connection_shear: u16_at(section, 56),
        concrete: u16_at(section, 58),
    }
}
