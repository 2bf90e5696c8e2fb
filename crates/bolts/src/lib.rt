// The bolts of a load case on an anchor channel. Lengths are in tenths of a millimetre ("tenths") from the first
// anchor, loads in N. The crate promises that a table holds at most 16 bolts in rising position, 300 tenths or more
// apart, each with loads in range; that a bolt is placed or lifted exactly as asked, or refused by the first question
// that it fails, with nothing changed; and that only the making of a table can run out of memory.
#![tactic(auto)]

pub mod bolt;
pub mod fault;
pub mod refusal;
pub mod table;
