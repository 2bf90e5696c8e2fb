// Anchor forces: which part of a bolt's load each anchor of a channel takes. The crate promises that the whole-number
// forces of a case are never below the exact ones, read by any brackets of the influence length, at most a thousandth
// of the whole load and 1 N above them, and that all forces of a case together stay within 4,000,000 N. It converts the
// units that loads and positions come in to those that forces are reckoned in.
#![tactic(auto)]

pub mod opening;
pub mod units;
