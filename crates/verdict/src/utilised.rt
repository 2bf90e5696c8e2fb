// How far a resistance is used.
ghost use Rattle.std.specs.Prelude.{◌≡◌, ◌*◌, ◌<◌};
ghost use Rattle.roots.specs.Division.{up};
ghost use Rattle.verdict.specs.Utilisations.{utilised};

// A resistance used whole, in ten-thousandths.
pub(crate) const WHOLE: u32 = 10_000;

// The most that is shown.
const CAP: u32 = 999_999;

// The quotient itself.
#[tactic(auto, using(crate::proofs::Ceilings::ceiling_up))]
fn quotient(effect: u64, resistance: u64) -> u128
    requires { 0 < resistance }
    ensures { result ≡ up (10000 * effect) resistance }
{
    let product = u128::from(WHOLE) * u128::from(effect);
    product.div_ceil(u128::from(resistance))
}

// The effect over the resistance in ten-thousandths, rounded up; 0 for no effect, at most 999,999, and that for no
// resistance.
#[tactic(auto, using(crate::proofs::Ceilings::capped))]
pub fn utilisation(effect: u64, resistance: u64) -> u32
    ensures { result ≡ utilised effect resistance }
{
    if effect == 0 {
        return 0;
    }
    if resistance == 0 {
        return CAP;
    }
    u32::try_from(quotient(effect, resistance))
        .unwrap_or(CAP)
        .min(CAP)
}
