// The engine: its state, and the calls that make a store, open a batch, work it off and seal it. The state goes in by
// value and each call hands the next one back.
#![tactic(auto)]

mod acts;
mod advance;
mod answers;
mod claim;
pub mod lent;
mod make;
mod moves;
mod open;
mod place;
mod rows;
mod seal;
mod tables;
mod workers;

use counters::Outcome;
use terms::{BatchNumber, Place, Position, Refusal, Verdict};

// "A transaction is Unprocessed, Executing by a named worker, or Complete with an outcome, committed or aborted." The
// enum that document 01 names for it.
#[derive(Clone, Copy, Debug, PartialEq, Eq)]
pub enum Progress {
    Unprocessed,
    Executing(u8),
    Complete(Outcome),
}

// A transaction of the batch.
#[derive(Clone, Copy, Debug, PartialEq, Eq)]
pub struct Row {
    pub progress: Progress,
}

// "A worker is idle; or holds a transaction and the values read so far; or, once decided, also outcome, new contents,
// carry marks and how many carries and fills are done." How far it is, with the counts that it then has: three cases,
// and so neither an Option nor a Result.
#[derive(Clone, Copy, Debug, PartialEq, Eq)]
pub enum Phase {
    Idle,
    Reading {
        values: u8,
    },
    Decided {
        outcome: Outcome,
        values: u8,
        carries: u8,
        fills: u8,
    },
}

// A worker; what its phase does not have is zero in the worker that a call makes idle, and is never looked at. Its
// arrays side by side, and not one of structs: the definitions and the theorems name each.
#[derive(Clone, Copy, Debug, PartialEq, Eq)]
pub struct Worker {
    pub phase: Phase,
    pub transaction: u8,
    pub values: [u64; 4],
    pub contents: [u64; 4],
    pub carried: [bool; 4],
}

// All that a store is besides the lent tables: N, P, W, F, n (0 when no batch is open), the batch number, each
// partition's count of placed transactions, each transaction's state and each worker's work. The fields are document
// 01's, and the definitions name each.
#[derive(Clone, Copy, Debug, PartialEq, Eq)]
pub struct State {
    pub records: u16,
    pub partitions: u8,
    pub workers: u8,
    pub next: Position,
    pub size: u8,
    pub batch: BatchNumber,
    pub placed: [u8; 8],
    pub rows: [Row; 64],
    pub crew: [Worker; 8],
}

// What a call answers. No Result: "A wait is an accepted step", and has a position. The refusal and its place apart,
// and not one `Refused`: the theorems name the two.
#[derive(Clone, Copy, Debug, PartialEq, Eq)]
pub enum Answer {
    Accepted,
    Waits(Position),
    Refused(Refusal, Place),
}

// A step's answer and the state after it.
#[derive(Clone, Copy, Debug, PartialEq, Eq)]
pub struct Stepped {
    pub answer: Answer,
    pub state: State,
}

// A store that was made, or the all-zero one. No Result: "A refused making .. hands back the all-zero store".
#[derive(Clone, Copy, Debug, PartialEq, Eq)]
pub struct Made {
    pub verdict: Verdict,
    pub state: State,
}
