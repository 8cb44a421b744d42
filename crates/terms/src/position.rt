// The two counters of the source: a position counts transactions, a batch number counts sealed batches. Nothing turns
// one into the other, so that a call that wants a position does not accept a batch number by slip.

// A log position: from 1 to 2^64 − 2, and up to 2^64 − 1 where it is the next one.
#[derive(Clone, Copy, Debug, PartialEq, Eq, PartialOrd, Ord)]
pub struct Position(pub u64);

// How many batches are sealed.
#[derive(Clone, Copy, Debug, PartialEq, Eq, PartialOrd, Ord)]
pub struct BatchNumber(pub u64);
