// The load case of an anchor channel: bolts are placed and lifted while it is open, closing it reckons the anchor
// forces, and reopening it drops them. It promises that the bolts held are exactly those placed and not lifted since,
// in rising position, that a refused call changes nothing, and that each force of a closed case is at least the exact
// one and hardly above it. Open and closed case are two types, so that the build refuses a call out of turn.
#![tactic(auto)]

mod anchor;
pub mod closed;
pub mod open;
