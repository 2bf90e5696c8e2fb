// The rating sheet of an anchor channel: any thirteen failure modes, one a line. The crate promises that showing and
// rating ask each line for its own figures and its own allowance, and answer as the rules define over the meanings of
// the thirteen modes.
#![tactic(auto)]

mod accuracy;
pub mod lines;
pub mod rating;
mod showing;
mod table;
