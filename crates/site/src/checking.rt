// From the numbers of a site to the site.
ghost use Rattle.std.specs.Prelude.{◌≡◌, if◌then◌else◌, Ok, Err};
ghost use Rattle.bolts.specs.declared.refusal.Refusal.TheVariants.{Opening};
ghost use Rattle.site.specs.Ranges.{site_in_range, state_of};
ghost use Rattle.site.specs.Sites.{read_as};

use crate::numbers::SiteNumbers;
use crate::site::Site;
use bolts::refusal::Refusal;
use certificate::fields::Edition;
use certificate::lookup::Concrete;

// A line writes the state as a number; a site has it as a kind; no TryFrom: the range was asked before.
fn state_of(cracked: u32) -> Concrete
    ensures { result ≡ state_of cracked }
{
    if cracked == 0 {
        Concrete::Uncracked
    } else {
        Concrete::Cracked
    }
}

impl SiteNumbers {
    // The site, by the rules of an edition, for a channel's embedment depth in tenths and its moment of inertia in mm⁴.
    // Refused exactly where a number is out of range.
    pub fn check(
        self,
        edition: Edition,
        embedment_depth: u16,
        moment_of_inertia: u32,
    ) -> Result<Site, Refusal>
        ensures { read_as result ≡ (if site_in_range edition embedment_depth moment_of_inertia self then Ok self else Err Opening) }
    {
        if !self.is_in_range(edition, embedment_depth, moment_of_inertia) {
            return Err(Refusal::Opening);
        }
        Ok(Site {
            strength: self.strength,
            concrete: state_of(self.cracked),
            edge_distance: self.edge_distance,
            left_corner: self.left_corner,
            right_corner: self.right_corner,
            thickness: self.thickness,
            dense: self.dense == 1,
            edge_factor: self.edge_factor,
            anchors: self.anchors,
            spacing: self.spacing,
        })
    }
}
