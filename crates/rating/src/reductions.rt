// The reduction for dense reinforcement.
ghost use Rattle.std.specs.Prelude.{◌≡◌, ◌≤◌};
ghost use Rattle.rating.specs.Concrete.{IsDense};

use failure::maybe::MaybeReduced;
use failure::straight::Straight;
use forces::units::um;

// The embedment depth below which dense reinforcement reduces, in tenths.
const SHALLOW: u32 = 1_000;

// The characteristic distance of the reduction, in µm.
const DENSE_DISTANCE: u64 = 200_000;

// The straight reduction at an embedment depth in tenths, where it applies.
pub(crate) fn by_density<M>(below: M, dense: bool, depth: u32) -> MaybeReduced<M>
    requires { depth ≤ 2500 }
    ensures { IsDense dense depth (λ m. m ≡ below) result }
{
    let rule = if dense && depth < SHALLOW {
        Some(Straight::new(um(SHALLOW + depth), DENSE_DISTANCE).unwrap())
    } else {
        None
    };
    MaybeReduced::new(below, rule)
}
