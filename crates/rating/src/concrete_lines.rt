// The lines of concrete. Lengths are in tenths of a millimetre.
ghost use Rattle.std.specs.Prelude.{◌≤◌};
ghost use Rattle.certificate.specs.Ranges.{GeometryInRange};
ghost use Rattle.rating.specs.Concrete.{IsCone, IsEdge, IsConeLine, IsEdgeLine};
ghost use Rattle.rating.specs.Lines.{cone_factor, edge_factor};

use crate::channel::{ConeLine, EdgeLine};
use crate::edition::ByEdition;
use crate::reductions::by_density;
use bolts::bolt::Direction;
use certificate::fields::{Edition, Geometry};
use certificate::lookup::Concrete;
use concrete_modes::cone::{Cone, ConeBasis};
use concrete_modes::edge::EdgeBasis;
use concrete_modes::edge::first::FirstEdge;
use concrete_modes::edge::second::SecondEdge;
use failure::corner::CornerReduction;
use failure::root::RootReduction;
use forces::units::um;
use site::site::Site;
use steel_modes::design::PartialFactor;

// What the lines of concrete are made from: the channel's geometry, the partial factor of concrete, and the site.
#[derive(Clone, Copy)]
pub(crate) struct ConcreteBasis<'a> {
    pub(crate) geometry: Geometry,
    pub(crate) factor: PartialFactor,
    pub(crate) site: &'a Site,
    ghost ranged: { GeometryInRange geometry },
}

impl ConcreteBasis<'_> {
    // The cone, with its multiple in tenths.
    fn cone(&self, direction: Direction, multiple: u16) -> Cone
        requires { (10 ≤ multiple) × (multiple ≤ 20) }
        ensures { let g = self.now.geometry in let t = self.now.site.now in IsCone direction (cone_factor g t.concrete) t.strength g.embedment_depth multiple self.now.factor.hundredths result }
    {
        // over other fields than the edge's: a shared match would be longer
        let k = match self.site.concrete {
            Concrete::Cracked => self.geometry.cone_factor_cracked,
            Concrete::Uncracked => self.geometry.cone_factor_uncracked,
        };
        let basis = ConeBasis {
            k: u32::from(k),
            strength: self.site.strength,
            depth: u32::from(self.geometry.embedment_depth),
            multiple: u32::from(multiple),
        };
        Cone::new(direction, basis, self.factor).unwrap()
    }

    // The edge by the rules of an edition.
    fn edge(&self, edition: Edition) -> ByEdition<FirstEdge, SecondEdge>
        ensures { let g = self.now.geometry in let t = self.now.site.now in IsEdge edition (edge_factor g t.concrete) t.strength t.edge_distance g.channel_width t.edge_factor self.now.factor.hundredths result }
    {
        // over other fields than the cone's: a shared match would be longer
        let k = match self.site.concrete {
            Concrete::Cracked => self.geometry.edge_factor_cracked,
            Concrete::Uncracked => self.geometry.edge_factor_uncracked,
        };
        let basis = EdgeBasis {
            k: u32::from(k),
            strength: self.site.strength,
            distance: self.site.edge_distance,
            width: u32::from(self.geometry.channel_width),
            p: self.site.edge_factor,
        };
        match edition {
            Edition::First => ByEdition::First(FirstEdge::new(basis, self.factor).unwrap()),
            Edition::Second => ByEdition::Second(SecondEdge::new(basis, self.factor).unwrap()),
        }
    }

    // The cone in a direction under its reductions: by the edge distance, by the corners, and for dense reinforcement.
    pub(crate) fn cone_line(&self, direction: Direction, multiple: u16) -> ConeLine
        requires { (10 ≤ multiple) × (multiple ≤ 20) }
        ensures { let g = self.now.geometry in let t = self.now.site.now in IsConeLine (IsCone direction (cone_factor g t.concrete) t.strength g.embedment_depth multiple self.now.factor.hundredths) g.embedment_depth t result }
    {
        let site = self.site;
        let cone = self.cone(direction, multiple);
        let edge = cone.characteristic_edge_distance();
        let by_edge = RootReduction::new(cone, um(site.edge_distance), edge).unwrap();
        let left = um(site.left_corner);
        let right = um(site.right_corner);
        let by_corners = CornerReduction::new(by_edge, left, right, edge).unwrap();
        by_density(
            by_corners,
            site.dense,
            u32::from(self.geometry.embedment_depth),
        )
    }

    // The edge by an edition under its reductions: by the corners, and by the member's thickness.
    pub(crate) fn edge_line(&self, edition: Edition) -> EdgeLine
        ensures { let g = self.now.geometry in let t = self.now.site.now in IsEdgeLine (IsEdge edition (edge_factor g t.concrete) t.strength t.edge_distance g.channel_width t.edge_factor self.now.factor.hundredths) g.channel_width g.channel_height t result }
    {
        let site = self.site;
        let edge = self.edge(edition);
        let twice = 2 * um(site.edge_distance);
        let width = um(u32::from(self.geometry.channel_width));
        let height = um(u32::from(self.geometry.channel_height));
        let left = um(site.left_corner);
        let right = um(site.right_corner);
        let by_corners = CornerReduction::new(edge, left, right, twice + width).unwrap();
        RootReduction::new(by_corners, um(site.thickness), twice + 2 * height).unwrap()
    }
}
