// The lines that every text has, in their order: the name, and the largest number that the field holds.
ghost use Rattle.std.specs.Prelude.{◌≡◌, map};
ghost use Rattle.certificate_text.specs.Names.{fields};
ghost use Rattle.certificate_text.specs.Fields.{field_of};

pub(crate) const FIELDS: usize = 32;

// Where the numbers of each part begin; the moment of inertia is the last of the geometry.
pub(crate) const EDITION_AT: usize = 0;

pub(crate) const GEOMETRY_AT: usize = 1;

pub(crate) const MOMENT_AT: usize = 11;

pub(crate) const VALUES_AT: usize = 12;

pub(crate) const FACTORS_AT: usize = 22;

// The largest numbers of 8, 16 and 32 bits; literals: From is not for constants.
const MOST_U8: u32 = 255;

const MOST_U16: u32 = 65_535;

const MOST_U32: u32 = u32::MAX;

// A field's name and the largest number that it holds.
#[derive(Clone, Copy)]
pub(crate) struct Field {
    pub(crate) name: &'static str,
    pub(crate) most: u32,
}

macro_rules! field {
    ($name:literal, $most:ident) => {
        Field {
            name: $name,
            most: $most,
        }
    };
}

const TABLE: [Field; FIELDS] = [
    field!("edition", MOST_U8),
    field!("embedment_depth", MOST_U16),
    field!("channel_width", MOST_U16),
    field!("channel_height", MOST_U16),
    field!("cone_factor_cracked", MOST_U16),
    field!("cone_factor_uncracked", MOST_U16),
    field!("edge_factor_cracked", MOST_U16),
    field!("edge_factor_uncracked", MOST_U16),
    field!("pryout_factor", MOST_U16),
    field!("lip_spacing_tension", MOST_U16),
    field!("lip_spacing_shear", MOST_U16),
    field!("moment_of_inertia", MOST_U32),
    field!("value_anchor", MOST_U32),
    field!("value_connection", MOST_U32),
    field!("value_lip", MOST_U32),
    field!("value_bolt", MOST_U32),
    field!("value_flexure", MOST_U32),
    field!("value_pullout", MOST_U32),
    field!("value_bolt_shear", MOST_U32),
    field!("value_lip_shear", MOST_U32),
    field!("value_anchor_shear", MOST_U32),
    field!("value_connection_shear", MOST_U32),
    field!("factor_anchor", MOST_U16),
    field!("factor_connection", MOST_U16),
    field!("factor_lip", MOST_U16),
    field!("factor_bolt", MOST_U16),
    field!("factor_flexure", MOST_U16),
    field!("factor_bolt_shear", MOST_U16),
    field!("factor_lip_shear", MOST_U16),
    field!("factor_anchor_shear", MOST_U16),
    field!("factor_connection_shear", MOST_U16),
    field!("factor_concrete", MOST_U16),
];

pub(crate) fn fields() -> &'static [Field]
    ensures { map field_of result.now ≡ fields }
{
    &TABLE
}
