// What is shown of a place, and what a rating answers.
ghost use Rattle.std.specs.Prelude.{◌≡◌};
ghost use Rattle.verdict.specs.Numbers.{number};

// The figures of one line at one place: effect and resistance in mN, for bending in thousandths of a newton-metre; the
// utilisation in ten-thousandths.
#[derive(Clone, Copy, Debug, Default, PartialEq, Eq)]
pub struct Shown {
    pub effect: u64,
    pub resistance: u64,
    pub utilisation: u32,
}

// The largest utilisation, with its line and place from 1.
#[derive(Clone, Copy, Debug, PartialEq, Eq)]
pub struct Governing {
    pub utilisation: u32,
    pub line: usize,
    pub place: usize,
}

// A combined check of tension and shear: of the steel of a bolt, of the channel at a bolt, of the steel of an anchor, or
// of the concrete.
#[derive(Clone, Copy, Debug, PartialEq, Eq)]
pub enum CombinedCheck {
    BoltSteel,
    Channel,
    Anchor,
    Concrete,
}

impl CombinedCheck {
    // The number of the check.
    pub fn number(self) -> u8
        ensures { result ≡ number self }
    {
        match self {
            CombinedCheck::BoltSteel => 1,
            CombinedCheck::Channel => 2,
            CombinedCheck::Anchor => 3,
            CombinedCheck::Concrete => 4,
        }
    }
}

// Whether a channel is accepted, the governing place where a line has a place, and the first combined check that fails
// where one does.
#[derive(Clone, Copy, Debug, PartialEq, Eq)]
pub struct Verdict {
    pub accepted: bool,
    pub governing: Option<Governing>,
    pub failed_check: Option<CombinedCheck>,
}
