// The calls from C, as include/uxoladun.h declares them: check one packed transaction, and run one batch from its
// opening to its last step. `capi_c` exports them; a slice is a pointer and a length there.
#![tactic(auto)]

mod report;
mod tables;

ghost use Rattle.std.specs.Prelude.{◌≡◌};
ghost use Rattle.terms.specs.Refusals.{verdict_number, verdict_place};
ghost use Rattle.packed.specs.Unpacking.{unpack_of};
ghost use Rattle.capi.specs.Running.{ran_of};
ghost use Rattle.capi.specs.Lent.{wrong_lent};

use engine::State;
use packed::unpack;
use terms::{Position, verdict_number, verdict_place};

// "Unpacking one entry is given N and checks 1, 2 (length not 88), 4 to 8".
pub fn uxoladun_check(bytes: &[u8], records: usize, place: &mut u64) -> u32
    ensures { (result ≡ verdict_number (unpack_of records bytes.now).verdict)
        × (place.new ≡ verdict_place (unpack_of records bytes.now).verdict) }
{
    let verdict = unpack(bytes, records).verdict;
    *place = verdict_place(verdict) as u64;
    u32::from(verdict_number(verdict))
}

// "a lent table's length is wrong"
fn is_wrong_lent(results: usize, outcomes: usize, counts: usize) -> bool
    ensures { result ≡ wrong_lent results outcomes counts }
{
    (results != 256) | (outcomes != 64) | (counts != 4)
}

// A store is made, the batch opened, and every step offered. Slices beside each other and a number for the answer: C's
// interface.
pub fn uxoladun_run(
    records: &mut [u64],
    log: &[u8],
    steps: &[u8],
    partitions: usize,
    workers: usize,
    first: u64,
    results: &mut [u64],
    outcomes: &mut [u8],
    counts: &mut [u64],
) -> u32
    ensures { (result ≡ (ran_of partitions workers first log.now steps.now records.old
        results.old outcomes.old counts.old).number)
        × ((records.new ≡ (ran_of partitions workers first log.now steps.now
        records.old results.old outcomes.old counts.old).records)
        × ((results.new ≡ (ran_of partitions workers first log.now steps.now
        records.old results.old outcomes.old counts.old).results)
        × ((outcomes.new ≡ (ran_of partitions workers first log.now steps.now
        records.old results.old outcomes.old counts.old).outcomes)
        × (counts.new ≡ (ran_of partitions workers first log.now steps.now
        records.old results.old outcomes.old counts.old).counts)))) }
{
    if is_wrong_lent(results.len(), outcomes.len(), counts.len()) {
        return 1;
    }
    let made = State::make(records.len(), partitions, workers, Position(first));
    match made.verdict {
        Ok(()) => tables::run_made(made.state, log, steps, records, results, outcomes, counts),
        Err(why) => u32::from(why.refusal.number()),
    }
}
