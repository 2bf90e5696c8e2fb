// The concrete edge in shear: by the rules of edition 1 and by those of edition 2.
pub(crate) mod basis;
pub mod first;
pub mod second;

// The allowance of either edition, in millionths.
const ALLOWANCE: u32 = 10;

// What the resistance of the edge is reckoned from: the factor k in tenths, the strength in N/mm², the edge distance
// and the channel width in tenths of a millimetre, and the factor p for the edge's reinforcement in hundredths.
#[derive(Clone, Copy)]
pub struct EdgeBasis {
    pub k: u32,
    pub strength: u32,
    pub distance: u32,
    pub width: u32,
    pub p: u32,
}
