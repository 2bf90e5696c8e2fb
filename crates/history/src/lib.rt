// Any list of calls on a load case, answered one after the other. The crate promises that each answer is that of a case
// with exactly the bolts that were placed and not lifted since, that a refused call changes nothing, and, at every turn
// of every list, what is promised of one case: no shown effect lies below the exact one and no shown resistance above
// it, both lie close to it, and every verdict is right on the exact figures.
#![tactic(auto)]

pub mod any_case;
pub mod call;
pub mod calls;
pub mod step;
