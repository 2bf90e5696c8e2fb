// An open case: its anchors and channel, the influence length in µm, and its bolts.
ghost use Rattle.std.specs.Prelude.{◌≡◌, ◌-◌, ◌*◌, ◌≤◌};
ghost use Rattle.influence.specs.Lengths.{influence_length};
ghost use Rattle.bolts.specs.Tables.{reaches};

use bolts::table::BoltTable;
use influence::Channel;

mod methods;
mod shares;

#[derive(Drop)]
pub struct OpenCase {
    anchors: u32,
    channel: Channel,
    length: u64,
    table: BoltTable,
    ghost two: { 2 ≤ anchors },
    ghost twelve: { anchors ≤ 12 },
    ghost reckoned: { length ≡ influence_length channel.inertia channel.spacing },
    ghost long: { 130000 ≤ length },
    ghost wider: { 100 * channel.spacing ≤ length },
    ghost short: { length ≤ 1000000 },
    ghost reach: { reaches table ≡ (anchors - 1) * channel.spacing },
}
