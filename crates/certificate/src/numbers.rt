// The numbers of a certificate, in the order of the file.
ghost use Rattle.std.specs.Prelude.{◌≡◌};
ghost use Rattle.certificate.specs.Writing.{geometry_shorts, values_list, factors_list};

use crate::fields::{CharacteristicValues, Geometry, PartialFactors};

// The geometry without the moment of inertia, which takes four bytes.
pub fn geometry_shorts(geometry: &Geometry) -> [u16; 10]
    ensures { result ≡ geometry_shorts geometry.now }
{
    [
        geometry.embedment_depth,
        geometry.channel_width,
        geometry.channel_height,
        geometry.cone_factor_cracked,
        geometry.cone_factor_uncracked,
        geometry.edge_factor_cracked,
        geometry.edge_factor_uncracked,
        geometry.pryout_factor,
        geometry.lip_spacing_tension,
        geometry.lip_spacing_shear,
    ]
}

pub fn values_list(values: &CharacteristicValues) -> [u32; 10]
    ensures { result ≡ values_list values.now }
{
    [
        values.anchor,
        values.connection,
        values.lip,
        values.bolt,
        values.flexure,
        values.pullout,
        values.bolt_shear,
        values.lip_shear,
        values.anchor_shear,
        values.connection_shear,
    ]
}

pub fn factors_list(factors: &PartialFactors) -> [u16; 10]
    ensures { result ≡ factors_list factors.now }
{
    [
        factors.anchor,
        factors.connection,
        factors.lip,
        factors.bolt,
        factors.flexure,
        factors.bolt_shear,
        factors.lip_shear,
        factors.anchor_shear,
        factors.connection_shear,
        factors.concrete,
    ]
}
