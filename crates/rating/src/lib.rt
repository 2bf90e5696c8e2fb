// The rating sheet of a channel on a site: which failure mode stands on each of its thirteen lines, with which of the
// certificate's and the site's numbers, under which reductions. The crate promises that every line holds just the
// numbers that its rule names, and that a sheet is refused by the first question that fails: of the certificate, of the
// site's numbers, of the strength class. For numbers in range no mode and no reduction is refused.
#![tactic(auto)]

pub mod channel;
mod concrete_lines;
pub mod edition;
pub mod fault;
pub mod prepared;
mod reductions;
mod strength;
