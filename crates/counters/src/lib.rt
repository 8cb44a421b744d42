// What a transaction does with the values that it read: the actions of the table, run on them in order. The definition
// to read first is specs/OneByOne.antt: the transactions of a log run singly, in order, on the records.
#![tactic(auto)]

mod deciding;
mod working;

pub use deciding::decide;

// How a transaction ends.
#[derive(Clone, Copy, Debug, PartialEq, Eq)]
pub enum Outcome {
    Committed,
    Aborted,
}

// What a transaction decides: its outcome and, for each declared write, the new contents and whether it is carried. A
// carried write has contents 0 until its carry; past the write count contents are 0 and nothing is carried. The two
// arrays are document 01's "new contents, carry marks", and the theorems cite each by itself.
#[derive(Clone, Copy, Debug, PartialEq, Eq)]
pub struct Decision {
    pub outcome: Outcome,
    pub contents: [u64; 4],
    pub carried: [bool; 4],
}
