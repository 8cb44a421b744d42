// The steps on a state whose transactions and workers are lent, so that a step copies no more than it changes. They,
// the numbers and the tables are lent side by side: `place`, `claim`, `advance` and `seal` promise them so, each by
// its name, and what they call takes them so.
pub(crate) mod advancing;
pub(crate) mod claiming;
pub(crate) mod entries;
pub(crate) mod moment;
pub(crate) mod placing;
pub(crate) mod range;
pub(crate) mod sealing;

ghost use Rattle.std.specs.Prelude.{◌≡◌, []};
ghost use Rattle.engine.specs.Lent.{joined, numbers_of};
ghost use Rattle.engine.specs.Range.{placed_by};
ghost use Rattle.engine.specs.LawsPlace.{placed_numbers};

use crate::{Answer, Row, State, Stepped, Worker, tables};
pub use advancing::advance;
pub use claiming::claim;
pub use placing::place;
pub use sealing::seal;
use terms::{BatchNumber, Position};

// A state without its transactions and workers.
#[derive(Clone, Copy, Debug, PartialEq, Eq)]
pub struct Numbers {
    pub records: u16,
    pub partitions: u8,
    pub workers: u8,
    pub next: Position,
    pub size: u8,
    pub batch: BatchNumber,
    pub placed: [u8; 8],
}

impl Numbers {
    // How many transactions a partition has placed; none past the eighth.
    pub(crate) fn placed_by(self, p: usize) -> u8
        ensures { result ≡ placed_by (joined self [] []) p }
    {
        self.placed.get(p).copied().unwrap_or(0)
    }

    // A partition has placed so many; past the eighth nothing changes.
    pub(crate) fn with_placed(mut self, p: usize, count: u8) -> Numbers
        ensures { result ≡ placed_numbers self p count }
    {
        tables::put(&mut self.placed, p, count);
        self
    }
}

// A step's answer and the numbers after it.
#[derive(Clone, Copy, Debug, PartialEq, Eq)]
pub struct Counted {
    pub answer: Answer,
    pub numbers: Numbers,
}

impl Counted {
    // The state that a step leaves, put together again with the transactions and the workers. Field by field, as in
    // `numbers_of`: a `State` has the numbers among its own fields. An array goes by a variable: the borrow
    // checker does not cover it otherwise.
    pub(crate) fn joined(self, rows: [Row; 64], crew: [Worker; 8]) -> Stepped
        ensures { result ≡ record { answer = self.answer; state = joined self.numbers rows crew } }
    {
        let numbers = self.numbers;
        let placed = numbers.placed;
        let state = State {
            records: numbers.records,
            partitions: numbers.partitions,
            workers: numbers.workers,
            next: numbers.next,
            size: numbers.size,
            batch: numbers.batch,
            placed,
            rows,
            crew,
        };
        Stepped {
            answer: self.answer,
            state,
        }
    }
}

// The numbers of a state; field by field, as `joined` says.
pub fn numbers_of(state: State) -> Numbers
    ensures { result ≡ numbers_of state }
{
    let placed = state.placed;
    Numbers {
        records: state.records,
        partitions: state.partitions,
        workers: state.workers,
        next: state.next,
        size: state.size,
        batch: state.batch,
        placed,
    }
}
