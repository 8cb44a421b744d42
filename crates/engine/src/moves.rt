// What an advance changes, decided before anything is touched.
ghost use Rattle.std.specs.Prelude.{◌≡◌, Ok, cond, ltb};
ghost use Rattle.engine.specs.Advance.{seen_of, unfilled, goes_on, breaks, waits_for, answer_of, value_or, results_of};
ghost use Rattle.engine.specs.Advance.{completed, with_fill, reads, decides_by, carries, after_fill, fills_in};

use crate::{Answer, Phase, Row, Worker};
use counters::{Decision, Outcome};
use terms::{Position, Refusal, Refused};
use versions::{Fill, Walked};

// What a look at a record shows: contents, a version that is not produced yet, or a chain that no run leaves so. Three
// cases, neither an Option nor a Result: what is not produced yet is waited for, and only the last is refused.
#[derive(Clone, Copy)]
pub enum Seen {
    Contents(u64),
    NotYet(u64),
    Unsound,
}

// What an accepted advance waits for, the worker as it goes on, how the transaction stands where the worker leaves it,
// the entry to fill, and the results where the transaction is complete.
#[derive(Clone, Copy)]
pub struct Move {
    pub waits: Option<Position>,
    pub worker: Worker,
    pub left: Option<Row>,
    pub fill: Option<Fill>,
    pub results: Option<[u64; 4]>,
}

pub(crate) fn seen_by(walked: Walked, stored: u64) -> Seen
    ensures { result ≡ seen_of walked stored }
{
    match walked {
        Walked::Stored => Seen::Contents(stored),
        Walked::Found(version) if version.produced => Seen::Contents(version.contents),
        Walked::Found(version) => Seen::NotYet(version.begin),
        Walked::Broken => Seen::Unsound,
    }
}

fn unfilled(
    waits: Option<Position>,
    worker: Worker,
    left: Option<Row>,
    results: Option<[u64; 4]>,
) -> Move
    ensures { result ≡ unfilled waits worker left results }
{
    Move {
        waits,
        worker,
        left,
        fill: None,
        results,
    }
}

fn goes_on(worker: Worker) -> Move
    ensures { result ≡ goes_on worker }
{
    unfilled(None, worker, None, None)
}

fn breaks() -> Result<Move, Refused>
    ensures { result ≡ breaks }
{
    Err(Refusal::BrokenTables.at(0))
}

// "the worker drops all it read and becomes idle, the transaction becomes Unprocessed"
fn waits_for(position: u64) -> Move
    ensures { result ≡ waits_for position }
{
    let left = Some(Row::unprocessed());
    unfilled(Some(Position(position)), Worker::idle(), left, None)
}

// "the values read, then zeros"
fn results_of(values: [u64; 4], count: u8) -> [u64; 4]
    ensures { result ≡ results_of values count }
{
    std::array::from_fn(|k| if k < usize::from(count) { values[k] } else { 0 })
}

// "completes the transaction: four result numbers at 4i are the values read, then zeros, and the worker becomes idle"
fn completed(outcome: Outcome, values: [u64; 4], count: u8) -> Move
    ensures { result ≡ completed outcome values count }
{
    let left = Some(Row::complete(outcome));
    let results = Some(results_of(values, count));
    unfilled(None, Worker::idle(), left, results)
}

impl Move {
    // "Filling stores contents and marks produced."
    fn with_fill(self, slot: usize, contents: u64) -> Move
        ensures { result ≡ with_fill self slot contents }
    {
        Move {
            fill: Some(Fill { slot, contents }),
            ..self
        }
    }

    // "A wait is an accepted step."
    pub(crate) fn answer(self) -> Answer
        ensures { result ≡ answer_of self.waits }
    {
        match self.waits {
            None => Answer::Accepted,
            Some(position) => Answer::Waits(position),
        }
    }
}

pub(crate) fn reads(worker: Worker, k: u8, seen: Seen) -> Result<Move, Refused>
    ensures { result ≡ reads worker k seen }
{
    match seen {
        Seen::Contents(contents) => Ok(goes_on(worker.with_value(k, contents))),
        Seen::NotYet(position) => Ok(waits_for(position)),
        Seen::Unsound => breaks(),
    }
}

// "the decision when there are no writes, completes the transaction"
pub(crate) fn decides(worker: Worker, writecount: u8, decision: Decision) -> Move
    ensures { result ≡ decides_by worker writecount decision }
{
    if writecount == 0 {
        completed(decision.outcome, worker.values, worker.phase.values_read())
    } else {
        goes_on(worker.with_decision(decision))
    }
}

// Two cases as in `reads`: a closure for the third would need a relation in the contract, where this has the
// definition.
pub(crate) fn carries(worker: Worker, j: u8, seen: Seen) -> Result<Move, Refused>
    ensures { result ≡ carries worker j seen }
{
    match seen {
        Seen::Contents(contents) => Ok(goes_on(worker.with_carry(j, contents))),
        Seen::NotYet(position) => Ok(waits_for(position)),
        Seen::Unsound => breaks(),
    }
}

// The worker after fill j: "The last fill .. completes the transaction". It is given the parts of the phase that
// `fills` took apart: taken apart here, the other phases would need an answer a second time.
fn after_fill(
    worker: Worker,
    outcome: Outcome,
    count: u8,
    carries: u8,
    j: u8,
    writecount: u8,
) -> Move
    ensures { result ≡ after_fill worker outcome count carries j writecount }
{
    let fills = j.saturating_add(1);
    if writecount <= fills {
        completed(outcome, worker.values, count)
    } else {
        goes_on(worker.with_phase(Phase::Decided {
            outcome,
            values: count,
            carries,
            fills,
        }))
    }
}

pub(crate) fn fills(worker: Worker, writecount: u8, j: u8) -> Result<Move, Refused>
    ensures { result ≡ fills_in worker.phase worker writecount j }
{
    let Phase::Decided {
        outcome,
        values,
        carries,
        fills: _,
    } = worker.phase
    else {
        return breaks();
    };
    let slot = 4 * usize::from(worker.transaction) + usize::from(j);
    let contents = worker.contents.get(usize::from(j)).copied().unwrap_or(0);
    let after = after_fill(worker, outcome, values, carries, j, writecount);
    Ok(after.with_fill(slot, contents))
}
