// A packed transaction: 88 bytes, what they mean, and the way between the two in both directions.
#![tactic(auto)]

mod decode;
mod encode;
mod fields;
mod form;
mod packing;
mod records;
mod unpacking;

pub use decode::no_meaning;
pub use fields::Fields;
pub use packing::pack;
use terms::Verdict;
pub use unpacking::{unpack, unpack_at};

// The bytes of a packed transaction.
pub(crate) type Entry = [u8; 88];

// An action, a case for each kind of the table, with the fields that the kind has: records r and s, constant c.
#[derive(Clone, Copy, Debug, PartialEq, Eq)]
pub enum Action {
    Nothing,
    Set { r: u16, c: u64 },
    Add { r: u16, c: u64 },
    Take { r: u16, c: u64 },
    Copy { r: u16, s: u16 },
    Move { r: u16, s: u16 },
    Floor { r: u16, c: u64 },
}

// One of the four places for an action in a transaction.
#[derive(Clone, Copy, Debug, PartialEq, Eq)]
pub struct ActionRow {
    pub action: Action,
}

// What an entry means. Entries of the sets and of the actions past their counts are zero, or `Nothing`. The counts
// stand beside whole arrays, since packing is to refuse a meaning by 4 for what a slice or an option could not hold.
#[derive(Clone, Copy, Debug, PartialEq, Eq)]
pub struct Transaction {
    pub readcount: u8,
    pub writecount: u8,
    pub actioncount: u8,
    pub reads: [u16; 4],
    pub writes: [u16; 4],
    pub actions: [ActionRow; 4],
}

// The answer of unpacking. The meaning stands beside the verdict, and not in it: "A refused .. unpacking hands back the
// all-zero .. meaning".
#[derive(Clone, Copy, Debug, PartialEq, Eq)]
pub struct Unpacked {
    pub verdict: Verdict,
    pub meaning: Transaction,
}
