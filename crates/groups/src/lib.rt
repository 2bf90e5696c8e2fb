// The effect on an anchor of a group: its own force and the weighted forces of its neighbours within a characteristic
// spacing. It promises that the effect is the defined number, never below the exact one, and at most a thousandth of
// the whole load and 1 N above it.
#![tactic(auto)]

pub mod effect;
pub mod spacing;
