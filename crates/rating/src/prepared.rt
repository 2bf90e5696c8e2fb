// The sheet of a channel on a site.
ghost use Rattle.std.specs.Prelude.{◌≡◌, true};
ghost use Rattle.loadcase.specs.Opened.{in_range};

use crate::channel::ChannelSheet;
use forces::opening::Opening;

mod preparing;

// The sheet, and the numbers that its load case is opened with, which are in range.
#[derive(Drop)]
pub struct Prepared {
    pub sheet: ChannelSheet,
    pub opening: Opening,
    ghost fits: { in_range opening ≡ true },
}
