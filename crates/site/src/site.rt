// A site whose numbers are in range. Lengths are in tenths of a millimetre, the strength in N/mm², the factor for the
// edge's reinforcement in hundredths. The corners lie from the first anchor to the left, from the last to the right.
ghost use Rattle.std.specs.Prelude.{◌≡◌, true};
ghost use Rattle.std.specs.Int.{IsInRange};
ghost use Rattle.site.specs.Ranges.{edge_factor_known};

use certificate::lookup::Concrete;

#[derive(Clone, Copy)]
pub struct Site {
    pub strength: u32,
    pub concrete: Concrete,
    pub edge_distance: u32,
    pub left_corner: u32,
    pub right_corner: u32,
    pub thickness: u32,
    // whether the reinforcement is dense
    pub dense: bool,
    pub edge_factor: u32,
    pub anchors: u32,
    pub spacing: u32,
    ghost strength_range: { IsInRange 12 75 strength },
    ghost edge_range: { IsInRange 250 5000 edge_distance },
    ghost left_range: { IsInRange 250 30000 left_corner },
    ghost right_range: { IsInRange 250 30000 right_corner },
    ghost thickness_range: { IsInRange 600 20000 thickness },
    ghost known_factor: { edge_factor_known edge_factor ≡ true },
    ghost factor_range: { IsInRange 100 140 edge_factor },
    ghost anchors_range: { IsInRange 2 12 anchors },
    ghost spacing_range: { IsInRange 500 2500 spacing },
}
