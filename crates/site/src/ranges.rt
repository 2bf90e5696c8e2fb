// The questions on a site's numbers.
ghost use Rattle.std.specs.Prelude.{◌≡◌};
ghost use Rattle.site.specs.Ranges.{between, flag, strength_known, edge_factor_known, concrete_in_range, edges_in_range, member_in_range, opening_in_range, site_in_range};

use crate::numbers::SiteNumbers;
use certificate::fields::Edition;

// The least and the greatest number of a range; `RangeInclusive::new` is a call, and a constant's value may not have one.
#[derive(Clone, Copy)]
struct Range {
    least: u32,
    most: u32,
}

const CUBE_STRENGTH: Range = Range {
    least: 15,
    most: 75,
};

const CYLINDER_STRENGTH: Range = Range {
    least: 12,
    most: 60,
};

const EDGE_DISTANCE: Range = Range {
    least: 250,
    most: 5_000,
};

const CORNER: Range = Range {
    least: 250,
    most: 30_000,
};

const THICKNESS: Range = Range {
    least: 600,
    most: 20_000,
};

const ANCHORS: Range = Range { least: 2, most: 12 };

const SPACING: Range = Range {
    least: 500,
    most: 2_500,
};

const INERTIA: Range = Range {
    least: 4_000,
    most: 200_000,
};

impl Range {
    fn has(self, number: u32) -> bool
        ensures { result ≡ between self.least self.most number }
    {
        (self.least..=self.most).contains(&number)
    }
}

// Whether a number is 0 or 1.
fn is_flag(number: u32) -> bool
    ensures { result ≡ flag number }
{
    number <= 1
}

fn is_known_strength(edition: Edition, strength: u32) -> bool
    ensures { result ≡ strength_known edition strength }
{
    match edition {
        Edition::First => CUBE_STRENGTH.has(strength),
        Edition::Second => CYLINDER_STRENGTH.has(strength),
    }
}

fn is_known_factor(factor: u32) -> bool
    ensures { result ≡ edge_factor_known factor }
{
    matches!(factor, 100 | 120 | 140)
}

impl SiteNumbers {
    // The strength, and whether the concrete is cracked and its reinforcement dense.
    fn has_concrete(self, edition: Edition) -> bool
        ensures { result ≡ concrete_in_range edition self }
    {
        is_known_strength(edition, self.strength) && is_flag(self.cracked) && is_flag(self.dense)
    }

    // The edge with its factor, and the corners.
    fn has_edges(self) -> bool
        ensures { result ≡ edges_in_range self }
    {
        EDGE_DISTANCE.has(self.edge_distance)
            && CORNER.has(self.left_corner)
            && CORNER.has(self.right_corner)
            && is_known_factor(self.edge_factor)
    }

    // The thickness of the member.
    fn has_member(self, embedment_depth: u16) -> bool
        ensures { result ≡ member_in_range embedment_depth self }
    {
        THICKNESS.has(self.thickness) && u32::from(embedment_depth) <= self.thickness
    }

    // The numbers that a case is opened with.
    fn has_opening(self, moment_of_inertia: u32) -> bool
        ensures { result ≡ opening_in_range moment_of_inertia self }
    {
        ANCHORS.has(self.anchors) && SPACING.has(self.spacing) && INERTIA.has(moment_of_inertia)
    }

    // Whether every number is in range.
    pub(crate) fn is_in_range(
        self,
        edition: Edition,
        embedment_depth: u16,
        moment_of_inertia: u32,
    ) -> bool
        ensures { result ≡ site_in_range edition embedment_depth moment_of_inertia self }
    {
        self.has_concrete(edition)
            && self.has_edges()
            && self.has_member(embedment_depth)
            && self.has_opening(moment_of_inertia)
    }
}
