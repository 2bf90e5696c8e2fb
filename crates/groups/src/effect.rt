// The effect on an anchor of a group.
ghost use Rattle.std.specs.Prelude.{◌≡◌, ◌<◌, IfSome, if◌then◌else◌, Some, None, nat_lt};
ghost use Rattle.groups.specs.Groups.{weight_on, part, group_effect, NeverBelowGroup, HardlyAboveGroup};
ghost use Rattle.loadcase.specs.Closed.{closed_case};

use crate::spacing::CharacteristicSpacing;
use bolts::bolt::Direction;
use forces::units::um;
use loadcase::closed::ClosedCase;
use roots::division::{Divisor, div_up};

// A weight of one, in millionths.
const WHOLE: u64 = 1_000_000;

// An anchor of a closed case, with the direction of the forces on it and on its neighbours, and their characteristic
// spacing.
#[derive(Clone, Copy)]
struct Group<'a> {
    case: &'a ClosedCase,
    direction: Direction,
    spacing: CharacteristicSpacing,
    anchor: u32,
    ghost within: { anchor < (closed_case case.now).opening.anchors },
}

impl Group<'_> {
    // The weight of the force on the j-th anchor; the anchor's own counts whole.
    fn weight(&self, j: u32) -> u64
        requires { j < (closed_case self.now.case.now).opening.anchors }
        ensures { result ≡ weight_on self.now.spacing.um (closed_case self.now.case.now).opening self.now.anchor j }
    {
        if j == self.anchor {
            return WHOLE;
        }
        let step = um(self.case.opening().spacing);
        let distance = (u64::from(self.anchor) * step).abs_diff(u64::from(j) * step);
        self.spacing.weight(distance)
    }

    // What the j-th anchor gives: its weighted force, rounded up.
    fn part(&self, j: u32) -> u64
        requires { j < (closed_case self.now.case.now).opening.anchors }
        ensures { result ≡ part self.now.spacing.um (closed_case self.now.case.now) self.now.direction self.now.anchor j }
    {
        let force = self.case.force(self.direction, j as usize).unwrap();
        let weighted = self.weight(j) * force;
        div_up(weighted, Divisor { number: WHOLE })
    }

    // What all anchors give.
    fn effect(&self) -> u64
        ensures { result ≡ group_effect self.now.spacing.um (closed_case self.now.case.now) self.now.direction self.now.anchor }
    {
        (0..self.case.opening().anchors).map(|j| self.part(j)).sum()
    }
}

// The effect in mN on the k-th anchor, from 0, of its own force and its neighbours' weighted ones; none past the last.
pub fn group_effect(
    case: &ClosedCase,
    direction: Direction,
    spacing: CharacteristicSpacing,
    k: usize,
) -> Option<u64>
    ensures value { result ≡ (if nat_lt k (closed_case case.now).opening.anchors then Some (group_effect spacing.um (closed_case case.now) direction k) else None) }
    ensures never_below { IfSome result (NeverBelowGroup spacing.um spacing.some (closed_case case.now) direction k) }
    ensures hardly_above { IfSome result (HardlyAboveGroup spacing.um spacing.some (closed_case case.now) direction k) }
{
    let anchor = u32::try_from(k).ok()?;
    if anchor >= case.opening().anchors {
        return None;
    }
    let group = Group {
        case,
        direction,
        spacing,
        anchor,
    };
    Some(group.effect())
}
