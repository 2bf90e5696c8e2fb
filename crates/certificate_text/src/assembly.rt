// The numbers of the fixed lines, under the names of the certificate. `as` loses nothing: each line was asked for a
// number that fits its field.
ghost use Rattle.std.specs.Prelude.{◌≡◌, ℕ, ◌+◌, ◌<◌, ◌≤◌, slice_index};
ghost use Rattle.certificate_text.specs.Content.{geometry_from, values_from, factors_from};
ghost use Rattle.certificate_text.specs.Names.{Fitting};

use crate::names::{FACTORS_AT, FIELDS, GEOMETRY_AT, VALUES_AT};
use certificate::fields::{CharacteristicValues, Geometry, PartialFactors};

// So many of the numbers, from this place on.
fn numbers_at<const N: usize>(numbers: &[u32; FIELDS], first: usize) -> [u32; N]
    requires { first + N ≤ 32 }
    ensures { (k : ℕ) → k < N → slice_index result k ≡ slice_index numbers.now (first + k) }
{
    *numbers[first..].first_chunk().unwrap() // there are so many
}

pub(crate) fn geometry_from(numbers: &[u32; FIELDS]) -> Geometry
    requires { Fitting numbers.now }
    ensures { result ≡ geometry_from numbers.now }
{
    let [
        embedment_depth,
        channel_width,
        channel_height,
        cone_factor_cracked,
        cone_factor_uncracked,
        edge_factor_cracked,
        edge_factor_uncracked,
        pryout_factor,
        lip_spacing_tension,
        lip_spacing_shear,
        moment_of_inertia,
    ] = numbers_at::<11>(numbers, GEOMETRY_AT);
    Geometry {
        embedment_depth: embedment_depth as u16,
        channel_width: channel_width as u16,
        channel_height: channel_height as u16,
        cone_factor_cracked: cone_factor_cracked as u16,
        cone_factor_uncracked: cone_factor_uncracked as u16,
        edge_factor_cracked: edge_factor_cracked as u16,
        edge_factor_uncracked: edge_factor_uncracked as u16,
        pryout_factor: pryout_factor as u16,
        lip_spacing_tension: lip_spacing_tension as u16,
        lip_spacing_shear: lip_spacing_shear as u16,
        moment_of_inertia,
    }
}

pub(crate) fn values_from(numbers: &[u32; FIELDS]) -> CharacteristicValues
    ensures { result ≡ values_from numbers.now }
{
    let [
        anchor,
        connection,
        lip,
        bolt,
        flexure,
        pullout,
        bolt_shear,
        lip_shear,
        anchor_shear,
        connection_shear,
    ] = numbers_at::<10>(numbers, VALUES_AT);
    CharacteristicValues {
        anchor,
        connection,
        lip,
        bolt,
        flexure,
        pullout,
        bolt_shear,
        lip_shear,
        anchor_shear,
        connection_shear,
    }
}

pub(crate) fn factors_from(numbers: &[u32; FIELDS]) -> PartialFactors
    requires { Fitting numbers.now }
    ensures { result ≡ factors_from numbers.now }
{
    let [
        anchor,
        connection,
        lip,
        bolt,
        flexure,
        bolt_shear,
        lip_shear,
        anchor_shear,
        connection_shear,
        concrete,
    ] = numbers_at::<10>(numbers, FACTORS_AT);
    PartialFactors {
        anchor: anchor as u16,
        connection: connection as u16,
        lip: lip as u16,
        bolt: bolt as u16,
        flexure: flexure as u16,
        bolt_shear: bolt_shear as u16,
        lip_shear: lip_shear as u16,
        anchor_shear: anchor_shear as u16,
        connection_shear: connection_shear as u16,
        concrete: concrete as u16,
    }
}
