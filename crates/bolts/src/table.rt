// The table of a load case's bolts.
ghost use Rattle.std.specs.Prelude.{◌≤◌, vec_len, vec_capacity};
ghost use Rattle.bolts.specs.Bolts.{Spaced, Sound};

use crate::bolt::Bolt;

mod methods;
mod places;

// The bolts in rising position, and the position of the last anchor, which none passes. Room for all of them is there
// from the start.
#[derive(Drop)]
pub struct BoltTable {
    reach: u32,
    bolts: Vec<Bolt>,
    ghost short: { reach ≤ 27500 },
    ghost few: { vec_len bolts ≤ 16 },
    ghost room: { 16 ≤ vec_capacity bolts },
    ghost spaced: { Spaced bolts.items },
    ghost sound: { Sound reach bolts.items },
}
