// A run over the tables that a caller lends and those of its own.
ghost use Rattle.std.specs.Prelude.{◌≡◌};
ghost use Rattle.capi.specs.LawsRunning.{ReturnedMet};
ghost use Rattle.capi.specs.Running.{made_ran};

use crate::report::{tell_counts, tell_outcomes};
use desk::{begin, offer_all};
use engine::{Answer, State};
use versions::empty;

// The batch is opened and every step offered. The newest-version table, as long as the records, and the version table
// are local arrays, and the slices are those that C lends. A refused opening tells nothing but its number.
pub(crate) fn run_made(
    state: State,
    log: &[u8],
    steps: &[u8],
    records: &mut [u64],
    results: &mut [u64],
    outcomes: &mut [u8],
    counts: &mut [u64],
) -> u32
    ensures { ReturnedMet (made_ran state log.now steps.now records.old results.old outcomes.old
        counts.old) result records.new results.new outcomes.new counts.new }
{
    let mut slots = [terms::NO_SLOT; 1024];
    let newest = &mut slots[..records.len().min(1024)];
    let mut versions = [empty(); 256];
    let opened = state.open(log, newest, &mut versions, results);
    if let Answer::Refused(refusal, _) = opened.answer {
        return u32::from(refusal.number());
    }
    let tally = begin(opened.state);
    let bytes = steps.len();
    let after = offer_all(
        tally,
        steps,
        bytes,
        log,
        records,
        newest,
        &mut versions,
        results,
    );
    tell_outcomes(after.state, outcomes);
    tell_counts(after, counts);
    0
}
