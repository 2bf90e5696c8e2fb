// The lines of a text, and the words of a line.
ghost use Rattle.std.specs.Prelude.{◌≡◌, ◌<◌, [], ◌∷◌, length, MatchOption};
ghost use Rattle.std.specs.Iterator.{YieldsFirstRef, item_count};
ghost use Rattle.std.specs.Option.{option_map};
ghost use Rattle.text_pieces.specs.Pieces.{FirstOf, CutAt, lines, words, words_after, WordsOf};

// The place of the first byte that is `wanted`, or the length where there is none.
pub fn place_of(bytes: &[u8], wanted: u8) -> usize
    ensures { FirstOf wanted bytes.now result }
{
    bytes
        .iter()
        .position(|byte| *byte == wanted)
        .unwrap_or(bytes.len())
}

// Where the first line of a text ends.
// not place_of at its callers: a function each, so that a line and a word have their own clause
fn line_end(text: &[u8]) -> usize
    ensures { FirstOf 10 text.now result }
{
    place_of(text, b'\n')
}

// Where the first word of a line ends.
fn word_end(line: &[u8]) -> usize
    ensures { FirstOf 32 line.now result }
{
    place_of(line, b' ')
}

// The first line of a text, without its line feed, and what follows it.
#[derive(Clone, Copy)]
pub struct LineCut<'a> {
    pub line: &'a [u8],
    pub rest: &'a [u8],
}

// Cuts off the first line; none where the text is empty.
pub fn cut_line<'a>(text: &'a [u8]) -> Option<LineCut<'a>>
    ensures lines { MatchOption result (lines text.now ≡ []) (λ cut. lines text.now ≡ cut.line.now ∷ lines cut.rest.now) }
    ensures shorter { MatchOption result (length text.now ≡ 0) (λ cut. length cut.rest.now < length text.now) }
    ensures cut { MatchOption result (text.now ≡ []) (λ cut. CutAt 10 text.now cut.line.now cut.rest.now) }
{
    if text.is_empty() {
        return None;
    }
    let end = line_end(text);
    Some(LineCut {
        line: &text[..end],
        rest: text.get(end + 1..).unwrap_or(&[]),
    })
}

// The lines of a text, one after the other.
// no split: a text that ends in a line feed has no empty last line
#[derive(Clone, Copy)]
pub struct Lines<'a> {
    rest: &'a [u8],
}

impl<'a> Lines<'a> {
    pub fn new(text: &'a [u8]) -> Lines<'a>
        ensures { result.rest.now ≡ text.now }
    {
        Lines { rest: text }
    }
}

impl<'a> Iterator for Lines<'a> {
    type Item = &'a [u8];

    ghost next_gives = { YieldsFirstRef (λ s. lines s.rest.now) };

    ghost remaining = { item_count (λ s. lines s.rest.now) };

    fn next(&mut self) -> Option<&'a [u8]> {
        let cut = cut_line(self.rest)?;
        self.rest = cut.rest;
        Some(cut.line)
    }
}

// The first word of a line, and what follows its space; none where the line has no space.
#[derive(Clone, Copy)]
pub struct WordCut<'a> {
    pub word: &'a [u8],
    pub rest: Option<&'a [u8]>,
}

// Cuts off the first word. Every line has one, if an empty one.
pub fn cut_word<'a>(line: &'a [u8]) -> WordCut<'a>
    ensures words { words line.now ≡ result.word.now ∷ words_after (option_map (λ x. x.now) result.rest) }
    ensures joined { WordsOf line.now (words line.now) }
{
    let end = word_end(line);
    WordCut {
        word: &line[..end],
        rest: line.get(end + 1..),
    }
}
