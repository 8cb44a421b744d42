// The state in a case file.
use crate::numbers::{byte, next_all, word};
use crate::tables;
use engine::{Phase, Progress, Row, State, Worker};
use std::io;
use std::io::Read;
use terms::{BatchNumber, Position};

// "the all-zero idle one". Written out, as is the row: the types of `engine` derive no Default.
pub(crate) const IDLE: Worker = Worker {
    phase: Phase::Idle,
    transaction: 0,
    values: [0; 4],
    contents: [0; 4],
    carried: [false; 4],
};

const UNPROCESSED: Row = Row {
    progress: Progress::Unprocessed,
};

// The state that follows in the file.
pub(crate) fn next(file: &mut impl Read) -> io::Result<State> {
    let [records, partitions, workers, first, size, sealed] = next_all::<6>(file)?;
    let placed = next_all::<8>(file)?;
    let mut rows = [UNPROCESSED; 64];
    tables::entries(file, &mut rows, 64)?;
    let mut crew = [IDLE; 8];
    tables::entries(file, &mut crew, 8)?;
    Ok(State {
        records: word(records),
        partitions: byte(partitions),
        workers: byte(workers),
        next: Position(first),
        size: byte(size),
        batch: BatchNumber(sealed),
        placed: placed.map(byte),
        rows,
        crew,
    })
}
