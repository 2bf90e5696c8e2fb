// A failure mode whose rule depends on the edition of the certificate, as one type.
ghost use Rattle.rating.specs.Editions.{edition_of};
ghost use Rattle.rating.specs.declared.edition.ByEdition.TheVariants.{First, Second};
ghost use Rattle.std.proofs.Common.{rules};

use bolts::bolt::Direction;
use failure::mode::FailureMode;
use failure::places::Places;
use loadcase::closed::ClosedCase;

// a type of this crate: the trait and the kit's Either are both of other crates
#[derive(Drop)]
pub enum ByEdition<A, B> {
    First(A),
    Second(B),
}

impl<A: FailureMode, B: FailureMode> FailureMode for ByEdition<A, B> {
    ghost meaning = { edition_of A.FailureMode.meaning B.FailureMode.meaning };

    ghost lawful = { elim [
      | First m ↦ λ c valid i here. A.FailureMode.lawful m c valid i here
      | Second m ↦ λ c valid i here. B.FailureMode.lawful m c valid i here
    ] };

    ghost few = { Prim.search rules };

    ghost allows = { Prim.search rules };

    ghost fixed = { Prim.search rules };

    fn allowance(&self) -> u32 {
        match self {
            ByEdition::First(mode) => mode.allowance(),
            ByEdition::Second(mode) => mode.allowance(),
        }
    }

    fn direction(&self) -> Direction {
        match self {
            ByEdition::First(mode) => mode.direction(),
            ByEdition::Second(mode) => mode.direction(),
        }
    }

    fn places(&self, case: &ClosedCase) -> Places {
        match self {
            ByEdition::First(mode) => mode.places(case),
            ByEdition::Second(mode) => mode.places(case),
        }
    }

    fn effect(&self, case: &ClosedCase, place: usize) -> Option<u64> {
        match self {
            ByEdition::First(mode) => mode.effect(case, place),
            ByEdition::Second(mode) => mode.effect(case, place),
        }
    }

    fn resistance(&self, case: &ClosedCase, place: usize) -> Option<u64> {
        match self {
            ByEdition::First(mode) => mode.resistance(case, place),
            ByEdition::Second(mode) => mode.resistance(case, place),
        }
    }
}
