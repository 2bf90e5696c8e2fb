// What a line of a job says.
ghost use Rattle.std.specs.Prelude.{◌≡◌, Some};
ghost use Rattle.job_text.specs.Lines.{job_line, said_by, site_line, place_line, lift_line, rate_line};
ghost use Rattle.job_text.specs.Written.{Says, printed, Small};

use crate::numbers::{Words, numbers_in};
use bolts::bolt::Bolt;
use site::numbers::SiteNumbers;
use text_pieces::pieces::cut_word;

#[derive(Clone, Copy)]
pub enum JobLine {
    // Begin with a site.
    Site(SiteNumbers),
    // Add a bolt.
    Place(Bolt),
    // Take out the bolt at a position.
    Lift(u32),
    // Rate the channel with its bolts.
    Rate,
}

fn site_in(words: Words<'_>) -> Option<JobLine>
    ensures { result ≡ site_line words.entry }
{
    let [
        strength,
        cracked,
        edge_distance,
        left_corner,
        right_corner,
        thickness,
        dense,
        edge_factor,
        anchors,
        spacing,
    ] = numbers_in::<10>(words)?;
    Some(JobLine::Site(SiteNumbers {
        strength,
        cracked,
        edge_distance,
        left_corner,
        right_corner,
        thickness,
        dense,
        edge_factor,
        anchors,
        spacing,
    }))
}

fn place_in(words: Words<'_>) -> Option<JobLine>
    ensures { result ≡ place_line words.entry }
{
    let [position, tension, shear] = numbers_in::<3>(words)?;
    Some(JobLine::Place(Bolt {
        position,
        tension,
        shear,
    }))
}

fn lift_in(words: Words<'_>) -> Option<JobLine>
    ensures { result ≡ lift_line words.entry }
{
    let [position] = numbers_in::<1>(words)?;
    Some(JobLine::Lift(position))
}

fn rate_in(words: Words<'_>) -> Option<JobLine>
    ensures { result ≡ rate_line words.entry }
{
    let _ = numbers_in::<0>(words)?;
    Some(JobLine::Rate)
}

// What a name says with the words after it.
fn called(name: &[u8], words: Words<'_>) -> Option<JobLine>
    ensures { result ≡ said_by name.now words.entry }
{
    match name {
        b"site" => site_in(words),
        b"place" => place_in(words),
        b"lift" => lift_in(words),
        b"rate" => rate_in(words),
        _ => None,
    }
}

impl JobLine {
    // Reads a line, without its line feed; none where it is not understood.
    pub fn parse(line: &[u8]) -> Option<JobLine>
        ensures value { result ≡ job_line line.now }
        ensures says { (j : JobLine) → result ≡ Some j → Says line.now j }
        ensures only { (j : JobLine) → Says line.now j → result ≡ Some j }
        ensures back { (j : JobLine) → Small j → job_line (printed j) ≡ Some j }
    {
        let cut = cut_word(line);
        called(cut.word, Words { rest: cut.rest })
    }
}
