// The readable text of a channel certificate: what people type and edit. It promises that any byte string is either
// understood line by line, each number under its name, or refused by the first line that is not understood; that the
// text of a certificate is its numbers under their names; and that this text, where the certificate was read, is
// understood as the same content.
#![tactic(auto)]

mod assembly;
pub mod fault;
mod line;
mod names;
mod numbers;
pub mod parsing;
pub mod printing;
mod reader;
pub mod text;
