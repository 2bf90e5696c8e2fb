// Worked figures that the definitions give, established together: whoever changes a definition has to meet them all.
// Two of them, which need no load case, are also reckoned by the code.
#![tactic(auto)]

ghost use Rattle.std.specs.Prelude.{◌≡◌};
ghost use Rattle.influence.specs.Lengths.{influence_length};
ghost use Rattle.groups.specs.Weights.{weight};
ghost use Rattle.figures.specs.Worked.{WorkedFigures};
ghost use Rattle.figures.specs.Sheets.{SheetFigures};

use groups::spacing::CharacteristicSpacing;
use influence::Channel;

// How many figures the record names: a function needs a result, and the record is in the clause.
const FIGURES: u8 = 9;

// The definitions give every worked figure.
pub fn figures_hold() -> u8
    ensures figures { WorkedFigures }
    ensures count { result ≡ 9 }
{
    count_of_figures()
}

// Apart, so that the checker proves the count alone.
fn count_of_figures() -> u8
    ensures { result ≡ 9 }
{
    FIGURES
}

// The worked channel: moment of inertia in mm⁴, spacing of anchors in tenths of a millimetre.
const INERTIA: u32 = 59_049;

const SPACING: u32 = 1_000;

// The worked group: characteristic spacing and distance of a neighbour in µm.
const GROUP: u64 = 400_000;

const NEIGHBOUR: u64 = 300_000;

// Worked figures as the code gives them: an influence length in µm, and the weight of a neighbour in millionths.
#[derive(Clone, Copy)]
pub struct Figures {
    pub length: u64,
    pub neighbour: u64,
}

// The meanings of modes and the combined checks give every worked figure, and so does the code.
pub fn sheet_figures_hold() -> Figures
    ensures figures { SheetFigures }
    ensures length { result.length ≡ 225166 }
    ensures neighbour { result.neighbour ≡ 125000 }
{
    Figures {
        length: worked_length(),
        neighbour: worked_neighbour(),
    }
}

fn worked_length() -> u64
    ensures { result ≡ influence_length 59049 1000 }
{
    Channel {
        inertia: INERTIA,
        spacing: SPACING,
    }
    .influence_length()
}

fn worked_neighbour() -> u64
    ensures { result ≡ weight 400000 300000 }
{
    CharacteristicSpacing { um: GROUP }.weight(NEIGHBOUR)
}
