// A rating job: a certificate and a text of lines, answered by a list of outcomes. The crate promises, for any bytes of
// both, which outcomes come and how they are printed: the answers are those of the promise over a list of calls, to just
// the calls that the lines make, on the sheet with the certificate's and the site's numbers.
#![tactic(auto)]

mod answering;
pub mod fault;
pub mod outcome;
pub mod printing;
pub mod running;
mod said;
mod script;
mod telling;
