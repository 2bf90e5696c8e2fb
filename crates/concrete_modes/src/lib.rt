// Failure modes of concrete. The crate promises of each what every failure mode owes: the effect on an anchor, with its
// neighbours' weighted forces, never lies below the exact one, and the resistance, a root rounded down, never above.
#![tactic(auto)]

pub mod cone;
pub mod edge;
