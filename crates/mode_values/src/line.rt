// What a line of the input says.
use crate::mode::Mode;
use bolts::bolt::Bolt;
use forces::opening::Opening;
use std::alloc::Global;
use std::str::from_utf8;
use text_pieces::numeral::number_in;

// its own words: only open and place are those of anchor_forces
#[derive(Clone, Copy)]
pub enum Line {
    // Begin a case with no bolt.
    Open(Opening),
    // Add a bolt.
    Place(Bolt),
    // Print the figures of a mode at a place, from 1.
    Mode(Mode, u32),
}

impl Line {
    // Reads a line, with its line feed or, at the end of the input, without; none where it says nothing known.
    pub(crate) fn parse(heap: Global, bytes: &[u8]) -> anyhow::Result<Option<Line>> {
        let Ok(line) = from_utf8(bytes) else {
            return Ok(None);
        };
        let mut words = line.strip_suffix('\n').unwrap_or(line).split(' ');
        let Some(word) = words.next() else {
            return Ok(None);
        };
        let mut numbers = Vec::new(heap);
        for text in words {
            let Some(number) = number_in(text.as_bytes()) else {
                return Ok(None);
            };
            numbers.push(number)?;
        }
        Ok(Line::said(word, numbers.as_slice()))
    }

    // The line of a word and its numbers.
    fn said(word: &str, numbers: &[u32]) -> Option<Line> {
        match (word, numbers) {
            ("open", &[anchors, spacing, inertia]) => Some(Line::Open(Opening {
                anchors,
                spacing,
                inertia,
            })),
            ("place", &[position, tension, shear]) => Some(Line::Place(Bolt {
                position,
                tension,
                shear,
            })),
            (_, &[place, ref numbers @ ..]) => Some(Line::Mode(Mode::parse(word, numbers)?, place)),
            _ => None,
        }
    }
}
