// The numbers after the first word of a line.
ghost use Rattle.std.specs.Prelude.{◌≡◌, List, ℕ};
ghost use Rattle.std.specs.Option.{option_map};
ghost use Rattle.text_pieces.specs.Pieces.{words_after};
ghost use Rattle.job_text.specs.Counted.{exactly};

use std::marker::Model;
use text_pieces::numeral::number_in;
use text_pieces::pieces::cut_word;

// The words of a line that are left to read; none where nothing follows.
#[derive(Drop)]
pub(crate) struct Words<'a> {
    pub(crate) rest: Option<&'a [u8]>,
}

impl<'a> Model for Words<'a> {
    ghost Value = { List (List ℕ) };

    ghost view = { λ w. words_after (option_map (λ x. x.now) w.rest) };
}

// The numbers that the words are; none where their count is another, or a word is no number.
pub(crate) fn numbers_in<const N: usize>(words: Words<'_>) -> Option<[u32; N]>
    ensures { result ≡ exactly N words.entry }
{
    let mut rest = words.rest;
    let mut numbers = [0; N];
    for number in &mut numbers {
        let cut = cut_word(rest?);
        *number = number_in(cut.word)?;
        rest = cut.rest;
    }
    rest.is_none().then_some(numbers)
}
