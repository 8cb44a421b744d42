// The version table, "one lent run of version entries", and the few functions that touch it. What can be decided by
// value stands in functions over single entries; those over the table are thin.
#![tactic(auto)]

mod chain;
mod entry;
mod plan;
mod seal;
mod step;
mod table;

pub use chain::{Walked, walk};
pub use entry::{empty, ended, filled, linked};
pub use plan::{Fill, Link};
pub use seal::{collect, newest_sound};
pub use step::{fill, link};
pub use table::{clear, entry_at, put, put_at};

// "Each entry has begin, end, previous slot, contents and a produced mark." The mark beside the contents and the slot
// as a number: the lent table is document 01's, and an entry that is not produced has contents too.
#[derive(Clone, Copy, Debug, PartialEq, Eq)]
pub struct Version {
    pub begin: u64,
    pub end: u64,
    pub previous: u16,
    pub contents: u64,
    pub produced: bool,
}
