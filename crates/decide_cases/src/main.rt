// Runs the stored cases of deciding and prints each decision on a line. The reference makes what it has to print.
#![tactic(auto)]

use case_files::{Cases, print_number, print_text};
use counters::{Decision, Outcome};
use packed::Transaction;
use std::io::Read;
use std::{array, io};

// What is decided: a meaning, on the values read.
#[derive(Clone, Copy)]
struct Case {
    meaning: Transaction,
    values: [u64; 4],
}

// The four values that follow a meaning.
fn values(b: [u8; 32]) -> [u64; 4] {
    array::from_fn(|value| little::long(array::from_fn(|byte| b[8 * value + byte])))
}

// Outcome is of another crate, so that no Display can be made for it here.
fn print_outcome(rt: &impl Print, outcome: Outcome) -> io::Result<()> {
    match outcome {
        Outcome::Committed => print_text(rt, b"committed"),
        Outcome::Aborted => print_text(rt, b"aborted"),
    }
}

// A whole line: the outcome, the contents and, 1 for one that is set, the marks.
fn print_line(rt: &impl Print, decision: Decision) -> io::Result<()> {
    print_outcome(rt, decision.outcome)?;
    for contents in decision.contents {
        print_number(rt, contents)?;
    }
    print_text(rt, b" :")?;
    for carried in decision.carried {
        print_number(rt, u64::from(carried))?;
    }
    print_text(rt, b"\n")
}

// The next case; none where the file has no whole one.
fn next_case(file: &mut impl Read) -> io::Result<Option<Case>> {
    let mut meaning = [0u8; 71];
    if reads::fill(file, &mut meaning)? < 71 {
        return Ok(None);
    }
    let mut read = [0u8; 32];
    if reads::fill(file, &mut read)? < 32 {
        return Ok(None);
    }
    Ok(Some(Case {
        meaning: case_files::meaning(meaning),
        values: values(read),
    }))
}

// The cases of deciding.
struct Decisions;

impl Cases for Decisions {
    fn run_next(rt: &impl Print, file: &mut impl Read) -> io::Result<Option<()>> {
        let Some(case) = next_case(file)? else {
            return Ok(None);
        };
        print_line(rt, counters::decide(case.meaning, case.values))?;
        Ok(Some(()))
    }
}

// The cases are named by their type, and no closure: `Cases` says why.
fn main(rt: HostRuntime) -> io::Result<()> {
    case_files::run_all::<Decisions, _>(&rt)
}
