// Prints the influence length and the anchor forces of load cases, so that a fitter can hold them against his sensor
// boards. Standard input has a line for each call, ended by a line feed, which the last one may lack: a word and numbers
// of 1 to 9 digits, with single spaces between.
//
//     open ANCHORS SPACING INERTIA    begin a case with no bolt, in place of an earlier case
//     place POSITION TENSION SHEAR    add a bolt
//     lift POSITION                   take out a bolt
//     forces                          close the case, print its figures and reopen it
//
// Position and spacing are in tenths of a millimetre, loads in N, the inertia in mm⁴. The figures are the influence
// length in µm and the forces in mN. A refused call changes nothing, and prints the number of the question that was
// answered no and that of the line. A line that says nothing, or a call with no open case, is not understood.
#![tactic(auto)]

mod line;

use anyhow::anyhow;
use bolts::bolt::Direction;
use bolts::fault::Fault;
use bolts::refusal::Refusal;
use line::Line;
use loadcase::closed::ClosedCase;
use loadcase::open::OpenCase;
use std::io;
use std::io::{BufRead, BufReader};

// Why a line was not followed.
#[derive(Drop)]
enum Trouble {
    // A call was refused: it is answered, and the next line read.
    Refused(Refusal),
    // The line says nothing, or there is no open case: likewise.
    NotUnderstood,
    // The program cannot go on.
    Failed(anyhow::Error),
}

impl From<Refusal> for Trouble {
    fn from(refusal: Refusal) -> Trouble {
        Trouble::Refused(refusal)
    }
}

impl From<Fault> for Trouble {
    fn from(fault: Fault) -> Trouble {
        match fault {
            Fault::Refused(refusal) => Trouble::Refused(refusal),
            Fault::Memory => Trouble::Failed(anyhow!("no memory for the case")),
        }
    }
}

impl From<io::Error> for Trouble {
    fn from(error: io::Error) -> Trouble {
        Trouble::Failed(error.into())
    }
}

fn print_figures(rt: &HostRuntime, case: &ClosedCase) -> io::Result<()> {
    let length = case.influence_length();
    println!(rt; "influence {length}")?;
    // by number: a force is asked by its anchor's
    for k in 0..case.opening().anchors {
        let anchor = k + 1;
        let tension = case.force(Direction::Tension, k as usize).unwrap();
        let shear = case.force(Direction::Shear, k as usize).unwrap();
        println!(rt; "anchor {anchor} {tension} {shear}")?;
    }
    Ok(())
}

fn print_forces(rt: &HostRuntime, held: &mut Option<OpenCase>) -> Result<(), Trouble> {
    let case = held.take().ok_or(Trouble::NotUnderstood)?;
    let closed = case.close();
    print_figures(rt, &closed)?;
    *held = Some(closed.reopen());
    Ok(())
}

fn follow(rt: &HostRuntime, held: &mut Option<OpenCase>, line: Line) -> Result<(), Trouble> {
    match line {
        Line::Open(opening) => *held = Some(OpenCase::open(rt.alloc(), opening)?),
        Line::Place(bolt) => held.as_mut().ok_or(Trouble::NotUnderstood)?.place(bolt)?,
        Line::Lift(position) => held.as_mut().ok_or(Trouble::NotUnderstood)?.lift(position)?,
        Line::Forces => print_forces(rt, held)?,
    }
    Ok(())
}

fn complain(rt: &HostRuntime, trouble: Trouble, number: u64) -> anyhow::Result<()> {
    match trouble {
        Trouble::Refused(refusal) => {
            let question = refusal.number();
            println!(rt; "refused {question} {number}")?;
        }
        Trouble::NotUnderstood => println!(rt; "line {number} is not understood")?,
        Trouble::Failed(error) => return Err(error),
    }
    Ok(())
}

fn run(rt: &HostRuntime) -> anyhow::Result<()> {
    let mut input = BufReader::new(rt.alloc(), rt.stdin())?;
    let mut bytes = Vec::new(rt.alloc());
    let mut held = None;
    // one buffer for all lines: `split` would make a list for each. An input need not end, so the lines are counted
    for number in 1..u64::MAX {
        bytes.clear();
        if input.read_until(b'\n', &mut bytes)? == 0 {
            break;
        }
        let followed = match Line::parse(bytes.as_slice()) {
            Some(line) => follow(rt, &mut held, line),
            None => Err(Trouble::NotUnderstood),
        };
        if let Err(trouble) = followed {
            complain(rt, trouble, number)?;
        }
    }
    Ok(())
}

fn main(rt: HostRuntime) -> anyhow::Result<()> {
    run(&rt)
}
