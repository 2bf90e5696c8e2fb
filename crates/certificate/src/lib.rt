// The channel certificate: the file that carries an anchor channel's approved numbers. It promises that any byte
// string is either read in place, every number in its range, or refused by the first question that it fails, with the
// byte where the failing pair or field begins; that what is written reads back as the same numbers; and that a refusal
// leaves the caller's buffer untouched.
#![tactic(auto)]

mod asking;
mod bytes;
pub mod certificate;
mod decode;
mod draft;
mod encode;
pub mod fault;
pub mod fields;
pub mod layout;
pub mod lookup;
pub mod numbers;
pub mod part;
mod rules;
mod strengths;
mod tables;
pub mod write;
