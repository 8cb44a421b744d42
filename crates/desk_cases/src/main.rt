// Runs the stored cases of the whole program and prints for each its number and then what the program prints. The
// reference makes what it has to print; reference/README.md says the form of both.
#![tactic(auto)]

use case_files::{print_number, print_text};
use program::{Part, Setup, close, load, run, whole};
use std::fs::File;
use std::io;

// The number in the four bytes from a place on; zeros stand for those that the file has not.
fn number_at(file: Part<&File>, place: usize) -> io::Result<usize> {
    let mut bytes = [0; 4];
    load(&mut part(file, place, 4), &mut bytes)?;
    Ok(u32::from_le_bytes(bytes) as usize)
}

// The bytes of a file of a case.
fn part(file: Part<&File>, start: usize, length: usize) -> Part<&File> {
    Part {
        start,
        length,
        ..file
    }
}

// The place after a part.
fn after(part: &Part<&File>) -> usize {
    part.start.saturating_add(part.length)
}

// Runs the case that stands at a place, and answers the place of the next.
fn case(rt: &impl Print, file: Part<&File>, place: usize) -> io::Result<usize> {
    let head = part(file, place, 12);
    let mut stored = part(file, after(&head), number_at(file, place)?);
    let mut log = part(
        file,
        after(&stored),
        number_at(file, place.saturating_add(4))?,
    );
    let mut steps = part(file, after(&log), number_at(file, place.saturating_add(8))?);
    run(rt, Setup::STANDARD, &mut stored, &mut log, &mut steps)?;
    Ok(after(&steps))
}

fn print_head(rt: &impl Print, k: usize) -> io::Result<()> {
    print_text(rt, b"case")?;
    print_number(rt, k as u64)?;
    print_text(rt, b"\n")
}

fn all_cases(rt: &impl Print, file: Part<&File>) -> io::Result<()> {
    let count = number_at(file, 0)?;
    let mut place: usize = 4;
    // By number: the file holds a count, and each case tells only where the next stands.
    for k in 0..count {
        print_head(rt, k)?;
        place = case(rt, file, place)?;
    }
    Ok(())
}

fn main(rt: HostRuntime) -> io::Result<()> {
    let file = whole(&rt, b"cases.bin");
    let shared = Part {
        file: file.file.as_ref(),
        start: file.start,
        length: file.length,
    };
    all_cases(&rt, shared)?;
    close(file);
    Ok(())
}
