// Whole roots, rounded down or up: one search by halving, proved once, and the powers that it is used with.
// And division that rounds up.
#![tactic(auto)]

mod bisection;
pub mod division;
mod powers;
pub mod ratio;
pub mod whole;
