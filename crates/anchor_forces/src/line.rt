// What a line of the input says.
use bolts::bolt::Bolt;
use forces::opening::Opening;
use std::str::from_utf8;
use text_pieces::numeral::number_in;

#[derive(Clone, Copy)]
pub enum Line {
    // Begin a case with no bolt.
    Open(Opening),
    // Add a bolt.
    Place(Bolt),
    // Take out the bolt at a position.
    Lift(u32),
    // Print the influence length and the anchor forces.
    Forces,
}

impl Line {
    // Reads a line, with its line feed or, at the end of the input, without; none where it is not understood.
    pub(crate) fn parse(bytes: &[u8]) -> Option<Line> {
        let line = from_utf8(bytes).ok()?;
        let mut words = line.strip_suffix('\n').unwrap_or(line).split(' ');
        let said = match words.next()? {
            "open" => Line::Open(Opening {
                anchors: number(words.next())?,
                spacing: number(words.next())?,
                inertia: number(words.next())?,
            }),
            "place" => Line::Place(Bolt {
                position: number(words.next())?,
                tension: number(words.next())?,
                shear: number(words.next())?,
            }),
            "lift" => Line::Lift(number(words.next())?),
            "forces" => Line::Forces,
            _ => return None,
        };
        words.next().is_none().then_some(said)
    }
}

// The number that a word writes; none where there is no word or it is no numeral.
fn number(word: Option<&str>) -> Option<u32> {
    number_in(word?.as_bytes())
}
