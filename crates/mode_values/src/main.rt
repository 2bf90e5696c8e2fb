// Prints effect and resistance of single failure modes, so that each can be held against another computation. Standard
// input has a line for each call, ended by a line feed: a word and numbers of 1 to 9 digits, with single spaces between.
//
//     open ANCHORS SPACING INERTIA         begin a case with no bolt, in place of an earlier case
//     place POSITION TENSION SHEAR         add a bolt
//     anchor_tension PLACE VALUE FACTOR    the steel of an anchor; and anchor_shear, bolt_tension, bolt_shear
//     lip_tension PLACE VALUE FACTOR SPACING                          and lip_shear
//     pull_out PLACE VALUE FACTOR STRENGTH
//     flexure PLACE VALUE FACTOR
//     cone PLACE K STRENGTH DEPTH FACTOR
//     pry_out PLACE K STRENGTH DEPTH MULTIPLE FACTOR
//     first_edge PLACE K STRENGTH DISTANCE WIDTH P FACTOR             and second_edge
//     root PLACE VALUE FACTOR A B                                     and straight: the steel of an anchor, reduced
//     anchor_corner PLACE VALUE FACTOR FIRST LAST B                   and bolt_corner
//
// Places count from 1. A mode prints `EFFECT RESISTANCE` in mN, for bending in thousandths of a newton-metre; or
// `no place`, `out of range`, or `refused NUMBER`. An opening or a bolt that is refused prints `refused NUMBER`, a bolt
// or a mode with no case open `no case`, and any other line `not understood`.
#![tactic(auto)]

mod figures;
mod line;
mod mode;

use anyhow::anyhow;
use bolts::bolt::Bolt;
use bolts::fault::Fault;
use figures::{Figures, NoFigures, Place};
use forces::opening::Opening;
use line::Line;
use loadcase::open::OpenCase;
use mode::Mode;
use std::io::{BufRead, BufReader};

fn open(rt: &HostRuntime, held: &mut Option<OpenCase>, opening: Opening) -> anyhow::Result<()> {
    match OpenCase::open(rt.alloc(), opening) {
        Ok(case) => {
            *held = Some(case);
            Ok(())
        }
        Err(Fault::Refused(refusal)) => Ok(println!(rt; "refused {}", refusal.number())?),
        Err(Fault::Memory) => Err(anyhow!("no memory for the case")),
    }
}

fn place(held: &mut Option<OpenCase>, bolt: Bolt) -> Result<(), NoFigures> {
    let case = held.as_mut().ok_or(NoFigures::NoCase)?;
    Ok(case.place(bolt)?)
}

fn figures_at(held: &mut Option<OpenCase>, mode: Mode, place: u32) -> Result<Figures, NoFigures> {
    let closed = held.take().ok_or(NoFigures::NoCase)?.close();
    let figures = match place.checked_sub(1) {
        Some(index) => mode.figures(Place {
            case: &closed,
            index: index as usize,
        }),
        None => Err(NoFigures::NoPlace),
    };
    *held = Some(closed.reopen());
    figures
}

fn follow(rt: &HostRuntime, held: &mut Option<OpenCase>, line: Line) -> anyhow::Result<()> {
    match line {
        Line::Open(opening) => open(rt, held, opening)?,
        Line::Place(bolt) => if let Err(none) = place(held, bolt) {
            println!(rt; "{none}")?;
        },
        Line::Mode(mode, place) => match figures_at(held, mode, place) {
            Ok(figures) => println!(rt; "{figures}")?,
            Err(none) => println!(rt; "{none}")?,
        },
    }
    Ok(())
}

fn run(rt: &HostRuntime) -> anyhow::Result<()> {
    let mut input = BufReader::new(rt.alloc(), rt.stdin())?;
    let mut bytes = Vec::new(rt.alloc());
    let mut held = None;
    // one buffer for all lines: `split` would make a list for each. An input need not end, so the lines are counted
    for _ in 1..u64::MAX {
        bytes.clear();
        if input.read_until(b'\n', &mut bytes)? == 0 {
            break;
        }
        match Line::parse(rt.alloc(), bytes.as_slice())? {
            Some(line) => follow(rt, &mut held, line)?,
            None => println!(rt; "not understood")?,
        }
    }
    Ok(())
}

fn main(rt: HostRuntime) -> anyhow::Result<()> {
    run(&rt)
}
