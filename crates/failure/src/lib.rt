// Failure modes of an anchor channel: what one tells of a closed case, and the reductions of its resistance. The crate
// promises of every mode that no effect lies below the exact one and no resistance above it, read by any brackets, and
// that neither lies farther off than its allowance says; and that a reduction of a mode keeps that promise.
#![tactic(auto)]

pub mod corner;
pub mod maybe;
pub mod mode;
pub mod places;
pub mod reduced;
pub mod resistance;
pub mod root;
pub mod rule;
mod scaling;
pub mod straight;
