// What the program prints, line by line, and what it makes of its files.
ghost use Rattle.std.specs.Prelude.{◌≡◌, ◌<◌, get_or};
ghost use Rattle.engine.specs.Answers.{answer_number};
ghost use Rattle.engine.specs.Make.{make_of};
ghost use Rattle.terms.specs.Refusals.{number_of};
ghost use Rattle.desk.specs.Lines.{line_of};
ghost use Rattle.desk.specs.Program.{records_in, outcome_of, four_at, reads_of};
ghost use Rattle.desk.specs.Program.{transaction_at, record_at, counts_of};
ghost use Rattle.desk.specs.Text.{refused_line};

use crate::text::{counts_line, record_line, refused_line, transaction_line};
use crate::{Line, Tally};
use counters::Outcome;
use engine::{Made, Progress, Row, State, Stepped};
use packed::unpack_at;
use terms::{Position, Refusal};

// "N is the length of records.bin over 8; a length that gives no proper N is a refused opening with 1."
fn records_in(bytes: usize) -> usize
    ensures { result ≡ records_in bytes }
{
    if bytes % 8 == 0 { bytes / 8 } else { 0 }
}

// A store for a records.bin of so many bytes, first position 1.
pub fn make_for(bytes: usize, partitions: usize, workers: usize) -> Made
    ensures { result ≡ make_of (records_in bytes) partitions workers 1 }
{
    State::make(records_in(bytes), partitions, workers, Position(1))
}

// Number k of a table; 0 past the last. A function, so that one clause, `get_or`, serves both who ask.
fn number_at(table: &[u64], k: usize) -> u64
    ensures { result ≡ get_or table.now k 0 }
{
    table.get(k).copied().unwrap_or(0)
}

// The four numbers from a place on.
fn four_at(results: &[u64], place: usize) -> [u64; 4]
    requires { place < 256 }
    ensures { result ≡ four_at results.now place }
{
    std::array::from_fn(|k| number_at(results, place + k))
}

fn outcome_of(row: Row) -> Outcome
    ensures { result ≡ outcome_of row.progress }
{
    match row.progress {
        Progress::Unprocessed | Progress::Executing(_) => Outcome::Aborted,
        Progress::Complete(outcome) => outcome,
    }
}

// How many reads a transaction of the log declares.
fn reads_of(log: &[u8], index: usize, n: usize) -> usize
    ensures { result ≡ reads_of n log.now index }
{
    usize::from(unpack_at(log, index, n).meaning.readcount)
}

// The line of a transaction; none past the 64 that a batch may have.
pub fn transaction_at(tally: Tally, log: &[u8], results: &[u64], index: usize) -> Line
    ensures { result ≡ line_of (transaction_at tally log.now results.now index) }
{
    let Some(&row) = tally.state.rows.get(index) else {
        return Line::blank();
    };
    let count = reads_of(log, index, usize::from(tally.state.records));
    let values = four_at(results, 4 * index);
    transaction_line(index as u64 + 1, outcome_of(row), count, values)
}

// The line of a record.
pub fn record_at(records: &[u64], number: usize) -> Line
    ensures { result ≡ line_of (record_at records.now number) }
{
    record_line(number as u64, number_at(records, number))
}

// The line of the counts.
pub fn counts_of(tally: Tally) -> Line
    ensures { result ≡ line_of (counts_of tally) }
{
    counts_line(tally.offered, tally.refused, tally.waits)
}

// The line of a refused making.
pub fn refusal_line(refusal: Refusal) -> Line
    ensures { result ≡ line_of (refused_line (number_of refusal)) }
{
    refused_line(u64::from(refusal.number()))
}

// The line of a refused opening.
pub fn opening_line(stepped: Stepped) -> Line
    ensures { result ≡ line_of (refused_line (answer_number stepped.answer)) }
{
    refused_line(u64::from(stepped.answer.number()))
}
