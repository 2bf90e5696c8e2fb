// The numbers of a site, as they are written. Lengths are in tenths of a millimetre, the strength in N/mm², the factor
// for the edge's reinforcement in hundredths. The corners lie from the first anchor to the left, from the last to the
// right.
#[derive(Clone, Copy, Debug, PartialEq, Eq)]
pub struct SiteNumbers {
    pub strength: u32,
    // cracked and dense: 0 or 1, as a line writes them; any number may be handed in, and `check` asks it
    pub cracked: u32,
    pub edge_distance: u32,
    pub left_corner: u32,
    pub right_corner: u32,
    pub thickness: u32,
    pub dense: u32,
    pub edge_factor: u32,
    pub anchors: u32,
    pub spacing: u32,
}
