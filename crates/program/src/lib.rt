// What document 01's program does with the bytes of records.bin, log.bin and steps.bin: the batch is opened and worked
// off, and its lines are printed. The bytes may stand in three files or in parts of one.
#![tactic(auto)]

mod files;
mod print;
mod tables;

use desk::{make_for, refusal_line};
pub use files::{close, load, whole};
use std::io;
use std::io::{Read, Seek};
use std::rt::Files;

// Bytes of an open file: so many from `start` on. There is no file where it could not be opened. Parts of one file
// share it, as `&File`. A length and no slice: the bytes lie in the file.
#[derive(Clone, Copy, Drop)]
pub struct Part<F> {
    pub file: Option<F>,
    pub start: usize,
    pub length: usize,
}

// P and W, and whether only the counts are printed: an enum of two would say no more than the name.
#[derive(Clone, Copy)]
pub struct Setup {
    pub partitions: usize,
    pub workers: usize,
    pub quiet: bool,
}

impl Setup {
    // "P and W are 2": document 01's program, which prints all lines.
    pub const STANDARD: Setup = Setup {
        partitions: 2,
        workers: 2,
        quiet: false,
    };
}

// All that the program does. A store that cannot be made is a refused opening. The only error is that of a read, a seek
// or a write; what was printed before it stays printed.
pub fn run<R: Print, F: Read + Seek>(
    rt: &R,
    setup: Setup,
    stored: &mut Part<F>,
    log: &mut Part<F>,
    steps: &mut Part<F>,
) -> io::Result<()> {
    let made = make_for(stored.length, setup.partitions, setup.workers);
    match made.verdict {
        Ok(()) => tables::run_made(rt, made.state, setup, stored, log, steps),
        Err(why) => print::print(rt, refusal_line(why.refusal)),
    }
}

// The same with the three files themselves.
pub fn run_files<R: Files + Print>(rt: &R, setup: Setup) -> io::Result<()> {
    let mut stored = whole(rt, b"records.bin");
    let mut log = whole(rt, b"log.bin");
    let mut steps = whole(rt, b"steps.bin");
    run(rt, setup, &mut stored, &mut log, &mut steps)?;
    close(stored);
    close(log);
    close(steps);
    Ok(())
}
