// Failure modes of steel: of anchors, bolts, lips and the bending of the channel; and the pull-out of anchors. The
// crate promises of each what every failure mode owes, with the allowance 0: a resistance is an exact quotient, rounded
// down once, and an effect never lies below the exact one.
#![tactic(auto)]

pub mod anchor;
mod arithmetic;
pub mod bolt;
pub mod design;
pub mod flexure;
pub mod lip;
pub mod pullout;
