// The numbers of a certificate in the order of the text's lines.
ghost use Rattle.std.specs.Prelude.{◌≡◌};
ghost use Rattle.certificate_text.specs.Printed.{edition_number, numbers_from};

use crate::names::{EDITION_AT, FACTORS_AT, FIELDS, GEOMETRY_AT, MOMENT_AT, VALUES_AT};
use certificate::fields::{CharacteristicValues, Edition, Geometry, PartialFactors};
use certificate::numbers::{factors_list, geometry_shorts, values_list};

// Numbers of 16 bits, held as numbers of 32.
fn widened(shorts: [u16; 10]) -> [u32; 10]
    ensures { result ≡ shorts }
{
    shorts.map(u32::from)
}

pub(crate) fn numbers_from(
    edition: Edition,
    g: Geometry,
    v: CharacteristicValues,
    f: PartialFactors,
) -> [u32; FIELDS]
    ensures { result ≡ numbers_from (edition_number edition) g v f }
{
    let mut numbers = [0; FIELDS];
    numbers[EDITION_AT] = u32::from(u8::from(edition));
    numbers[GEOMETRY_AT..MOMENT_AT].copy_from_slice(&widened(geometry_shorts(&g)));
    numbers[MOMENT_AT] = g.moment_of_inertia;
    numbers[VALUES_AT..FACTORS_AT].copy_from_slice(&values_list(&v));
    numbers[FACTORS_AT..].copy_from_slice(&widened(factors_list(&f)));
    numbers
}
