// What the lines of a job say. The crate promises that a line is either understood, as a word of the job with its
// numbers, or not understood, and that a line is understood exactly where it is such a word and for each number a space
// and 1 to 9 digits.
#![tactic(auto)]

pub mod line;
mod numbers;
