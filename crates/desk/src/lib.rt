// What the program does with the steps that it is offered: each goes to the engine or is refused at once, and is
// counted.
#![tactic(auto)]

mod counts;
mod offering;
mod output;
mod steps;
mod text;
mod writing;

pub use counts::begin;
use engine::State;
pub use offering::offer_all;
pub use output::{counts_of, make_for, opening_line, record_at, refusal_line, transaction_at};
pub use text::{counts_line, not_sealed_line, record_line, refused_line, transaction_line};

// "4 bytes a step: kind 1 place, 2 claim, 3 advance, 4 seal; party; 16-bit transaction, zero except for a claim".
// A kind is a number here: the file's form, which `step_at` and the theorems of `promised` name; `asks` has the
// enum.
#[derive(Clone, Copy, Debug, PartialEq, Eq)]
pub struct Step {
    pub kind: u8,
    pub party: u8,
    pub transaction: u16,
}

// A line of the program's output: its first `length` bytes. A buffer with its length: no heap, and `line_of` names
// both.
#[derive(Clone, Copy, Debug, PartialEq, Eq)]
pub struct Line {
    pub bytes: [u8; 128],
    pub length: usize,
}

// The engine's state, the three counts of the last line, and whether a seal was accepted: a mark beside the counts,
// since "Steps after an accepted seal are still offered".
#[derive(Clone, Copy)]
pub struct Tally {
    pub state: State,
    pub offered: u64,
    pub refused: u64,
    pub waits: u64,
    pub sealed: bool,
}
