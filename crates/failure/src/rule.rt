// What a rule is by which a reduction scales the resistances of the mode below it.
ghost use Rattle.std.specs.Prelude.{◌≡◌};
ghost use Rattle.loadcase.specs.Closed.{closed_case};
ghost use Rattle.failure.specs.Scalings.{Scaling, allowed, scaled, RootsInRange};

use crate::places::Place;
use crate::resistance::Resistance;

pub trait Rule {
    ghost scaling: { Self → Scaling };

    // The allowance under the rule, in millionths, from that of the mode below.
    // no default body: a rule that scales nothing, as None, raises nothing
    fn raise(&self, allowance: u32) -> u32
        ensures { result ≡ allowed (scaling self.now) allowance };

    // The resistance at a place under the rule, in mN.
    fn scale(&self, below: Resistance, place: Place<'_>) -> u64
        ensures { result ≡ scaled (scaling self.now) (closed_case place.entry.case.now) place.entry.kind place.entry.index below.mn };

    ghost ranged: { (r : Self) → RootsInRange (scaling r) };
}
