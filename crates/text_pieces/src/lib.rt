// The pieces of a text: its lines, the words of a line, and the numbers that words write. The crate promises that a
// line ends just before its line feed and a word just before its space, with nothing lost between them, and that a
// number is what 1 to 9 digits write, and nothing else is a number.
#![tactic(auto)]

pub mod numeral;
pub mod pieces;
