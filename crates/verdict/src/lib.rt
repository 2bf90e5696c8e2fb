// The verdict on a closed load case: how far each resistance is used, the combined checks of tension and shear, and
// whether the channel is accepted. The crate promises that an accepted channel meets every verification exactly, for
// every choice of brackets, and that a rejected one breaks some verification once effects are raised and resistances
// lowered by a sliver, for any failure modes that keep their laws.
#![tactic(auto)]

pub mod answer;
mod checks;
pub mod figures;
mod governing;
pub mod lines;
pub mod rating;
pub mod row;
pub mod sheet;
mod table;
pub mod utilised;
pub mod verdicts;
