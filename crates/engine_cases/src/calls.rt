// The call that a case makes.
use crate::numbers::{next_all, next_if_any};
use crate::tables::Tables;
use engine::{Answer, Made, State, Stepped};
use std::io;
use std::io::Read;
use terms::Position;

// "make N, P, W, start; place p; claim w, i; advance w"
#[derive(Clone, Copy)]
pub(crate) enum Call {
    Make {
        records: usize,
        partitions: usize,
        workers: usize,
        start: Position,
    },
    Open,
    Place(usize),
    Claim {
        worker: usize,
        transaction: usize,
    },
    Advance(usize),
    Seal,
}

// What making a store answers, as a step does.
fn stepped(made: Made) -> Stepped {
    let answer = match made.verdict {
        Ok(()) => Answer::Accepted,
        Err(refused) => Answer::from(refused),
    };
    Stepped {
        answer,
        state: made.state,
    }
}

// "0 make, 1 open, 2 place, 3 claim, 4 advance, 5 seal", and the four numbers that are given with it.
impl From<[u64; 5]> for Call {
    fn from(numbers: [u64; 5]) -> Call {
        match numbers {
            [0, records, partitions, workers, start] => Call::Make {
                records: records as usize,
                partitions: partitions as usize,
                workers: workers as usize,
                start: Position(start),
            },
            [1, ..] => Call::Open,
            [2, partition, ..] => Call::Place(partition as usize),
            [3, worker, transaction, ..] => Call::Claim {
                worker: worker as usize,
                transaction: transaction as usize,
            },
            [4, worker, ..] => Call::Advance(worker as usize),
            _ => Call::Seal,
        }
    }
}

impl Call {
    // The call of the next case; None where the file has no case left.
    pub fn next(file: &mut impl Read) -> io::Result<Option<Call>> {
        let Some(kind) = next_if_any(file)? else {
            return Ok(None);
        };
        let [first, second, third, fourth] = next_all::<4>(file)?;
        Ok(Some(Call::from([kind, first, second, third, fourth])))
    }

    pub fn is_lent_versions(self) -> bool {
        !matches!(self, Call::Make { .. } | Call::Claim { .. })
    }

    // Makes the call on this state, and lends it what it asks for.
    pub fn step(self, state: State, tables: &mut Tables<'_>) -> Stepped {
        // One by one: the borrow checker does not cover a pattern over them.
        let log = tables.log;
        let newest = &mut *tables.newest;
        let versions = &mut *tables.versions;
        let records = &mut *tables.records;
        let results = &mut *tables.results;
        match self {
            Call::Make {
                records,
                partitions,
                workers,
                start,
            } => stepped(State::make(records, partitions, workers, start)),
            Call::Open => state.open(log, newest, versions, results),
            Call::Place(partition) => state.place(partition, log, newest, versions),
            Call::Claim {
                worker,
                transaction,
            } => state.claim(worker, transaction),
            Call::Advance(worker) => state.advance(worker, log, records, newest, versions, results),
            Call::Seal => state.seal(records, newest, versions),
        }
    }
}
