// The site of a job: what its first line says of the concrete, the edge, the corners, the member and the anchors. The
// crate promises that a site is made exactly where every number is in range, with just these numbers, and that a site
// keeps its ranges, so that what is reckoned from it asks nothing more.
#![tactic(auto)]

mod checking;
pub mod numbers;
mod ranges;
pub mod site;
