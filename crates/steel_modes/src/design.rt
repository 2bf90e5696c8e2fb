// Characteristic values and design values. The partial factor alone leads from one to the other.
ghost use Rattle.std.specs.Prelude.{◌≡◌, ◌*◌, ◌/◌, ◌≤◌};
ghost use Rattle.steel_modes.specs.Ranges.{Made, factor_well};

// The least and the greatest partial factor, in hundredths.
const LEAST_FACTOR: u32 = 100;

const MOST_FACTOR: u32 = 300;

// Hundredths of a mN in 1 N.
const NEWTON: u64 = 100_000;

// A partial factor in hundredths, 1.00 to 3.00.
// value and factor as two fields of a mode: what each mode holds is named so in the promises of the sheet
#[derive(Clone, Copy)]
pub struct PartialFactor {
    hundredths: u32,
    ghost least: { 100 ≤ hundredths },
    ghost most: { hundredths ≤ 300 },
}

// A characteristic value in hundredths of a mN, or of a thousandth of a newton-metre.
#[derive(Clone, Copy)]
pub struct Characteristic {
    pub hundredths: u64,
}

// A design value in mN, or in thousandths of a newton-metre.
#[derive(Clone, Copy)]
pub struct Design {
    pub value: u64,
}

impl PartialFactor {
    // A partial factor; none where it is out of range.
    pub fn new(hundredths: u32) -> Option<Self>
        ensures { Made (factor_well hundredths) (λ f. f.hundredths ≡ hundredths) result }
    {
        if (LEAST_FACTOR..=MOST_FACTOR).contains(&hundredths) {
            Some(PartialFactor { hundredths })
        } else {
            None
        }
    }
}

impl Characteristic {
    // A value given in N, or in newton-metres.
    pub(crate) fn from_newtons(value: u32) -> Self
        ensures { result.hundredths ≡ value * 100000 }
    {
        Characteristic {
            hundredths: u64::from(value) * NEWTON,
        }
    }

    // The design value: the characteristic one over the factor, down.
    pub fn design(self, factor: PartialFactor) -> Design
        ensures { result.value ≡ self.hundredths / factor.hundredths }
    {
        Design {
            value: self.hundredths / u64::from(factor.hundredths),
        }
    }
}
