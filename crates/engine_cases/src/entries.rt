// What stands in the state's rows and crew and in the tables, as the numbers of a case file.
ghost use Rattle.std.specs.Prelude.{◌≤◌};

use crate::numbers::{byte, next, next_all, word};
use crate::{print, state};
use counters::Outcome;
use engine::{Phase, Progress, Row, Worker};
use std::io;
use std::io::Read;
use versions::Version;

// A trait of this program's: a `From` reads no file, and no Display can be made for a type of another crate.
pub(crate) trait Entry: Copy {
    // The entry that follows in the file.
    fn next(file: &mut impl Read) -> io::Result<Self>;

    // The entry after its index; nothing for an entry that a file leaves out.
    fn print(self, rt: &impl Print, index: usize) -> io::Result<()>;
}

// A record or a result.
impl Entry for u64 {
    fn next(file: &mut impl Read) -> io::Result<u64> {
        next(file)
    }

    fn print(self, rt: &impl Print, index: usize) -> io::Result<()> {
        if self == 0 {
            return Ok(());
        }
        print!(rt; " {index} {self}")
    }
}

// A slot of the newest-version table.
impl Entry for u16 {
    fn next(file: &mut impl Read) -> io::Result<u16> {
        Ok(word(next(file)?))
    }

    fn print(self, rt: &impl Print, index: usize) -> io::Result<()> {
        if terms::is_no_slot(self) {
            return Ok(());
        }
        print!(rt; " {index} {self}")
    }
}

impl Entry for Version {
    fn next(file: &mut impl Read) -> io::Result<Version> {
        let [begin, end, previous, contents, produced] = next_all::<5>(file)?;
        Ok(Version {
            begin,
            end,
            previous: word(previous),
            contents,
            produced: produced == 1,
        })
    }

    fn print(self, rt: &impl Print, index: usize) -> io::Result<()> {
        if self == versions::empty() {
            return Ok(());
        }
        let Version {
            begin,
            end,
            previous,
            contents,
            produced,
        } = self;
        print!(rt;
            " {index} {begin} {end} {previous} {contents} {}",
            u8::from(produced)
        )
    }
}

// "the worker's number 0 to 255 for Executing, 256 for Complete and committed, 257 for Complete and aborted"
impl Entry for Row {
    fn next(file: &mut impl Read) -> io::Result<Row> {
        let progress = match next(file)? {
            worker @ 0..=255 => Progress::Executing(worker as u8),
            256 => Progress::Complete(Outcome::Committed),
            _ => Progress::Complete(Outcome::Aborted),
        };
        Ok(Row { progress })
    }

    fn print(self, rt: &impl Print, index: usize) -> io::Result<()> {
        let code = match self.progress {
            Progress::Unprocessed => return Ok(()),
            Progress::Executing(worker) => u64::from(worker),
            Progress::Complete(Outcome::Committed) => 256,
            Progress::Complete(Outcome::Aborted) => 257,
        };
        print!(rt; " {index} {code}")
    }
}

// Outcomes and phases are of other crates, so that none of the conversions below can be a `From`.
fn outcome(code: u64) -> Outcome {
    match code {
        0 => Outcome::Committed,
        _ => Outcome::Aborted,
    }
}

fn outcome_code(outcome: Outcome) -> u64
    ensures { result ≤ 1 }
{
    match outcome {
        Outcome::Committed => 0,
        Outcome::Aborted => 1,
    }
}

fn phase(code: u64, outcome: Outcome, values: u8, carries: u8, fills: u8) -> Phase {
    match code {
        0 => Phase::Idle,
        1 => Phase::Reading { values },
        _ => Phase::Decided {
            outcome,
            values,
            carries,
            fills,
        },
    }
}

// A phase's number, outcome and three counts. "Outcome and counts that the phase does not have are 0."
fn phase_numbers(phase: Phase) -> [u64; 5] {
    match phase {
        Phase::Idle => [0; 5],
        Phase::Reading { values } => [1, 0, u64::from(values), 0, 0],
        Phase::Decided {
            outcome,
            values,
            carries,
            fills,
        } => [
            2,
            outcome_code(outcome),
            u64::from(values),
            u64::from(carries),
            u64::from(fills),
        ],
    }
}

// "phase (0 idle, 1 reading, 2 decided); transaction; outcome (0 committed, 1 aborted); how many values, carries and
// fills; four values; four contents; four carry marks (0 or 1)"
impl Entry for Worker {
    fn next(file: &mut impl Read) -> io::Result<Worker> {
        let [code, transaction, aborted, read, carries, fills] = next_all::<6>(file)?;
        let values = next_all::<4>(file)?;
        let contents = next_all::<4>(file)?;
        let marks = next_all::<4>(file)?;
        Ok(Worker {
            phase: phase(
                code,
                outcome(aborted),
                byte(read),
                byte(carries),
                byte(fills),
            ),
            transaction: byte(transaction),
            values,
            contents,
            carried: marks.map(|mark| mark == 1),
        })
    }

    fn print(self, rt: &impl Print, index: usize) -> io::Result<()> {
        if self == state::IDLE {
            return Ok(());
        }
        let Worker {
            phase,
            transaction,
            values,
            contents,
            carried,
        } = self;
        let [code, outcome, read, carries, fills] = phase_numbers(phase);
        print!(rt; " {index} {code} {transaction} {outcome} {read} {carries} {fills}")?;
        print::numbers(rt, &values)?;
        print::numbers(rt, &contents)?;
        print::numbers(rt, &carried.map(u64::from))
    }
}
