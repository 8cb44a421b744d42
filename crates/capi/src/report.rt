// What a run tells its caller besides the records and the results: what became of each transaction, and the counts.
ghost use Rattle.std.specs.Prelude.{◌≡◌};
ghost use Rattle.capi.specs.Report.{outcome_byte, outcomes_of, counts_of};

use counters::Outcome;
use desk::Tally;
use engine::{Progress, Row, State};
use versions::put;

// What became of a transaction, as `uxoladun_run` numbers it for C.
fn outcome_byte(row: Row) -> u8
    ensures { result ≡ outcome_byte row.progress }
{
    match row.progress {
        Progress::Unprocessed | Progress::Executing(_) => 0,
        Progress::Complete(Outcome::Committed) => 1,
        Progress::Complete(Outcome::Aborted) => 2,
    }
}

// By index: after a `zip` over `iter_mut` the loop does not say what the table holds.
pub(crate) fn tell_outcomes(state: State, outcomes: &mut [u8])
    ensures { outcomes.new ≡ outcomes_of state outcomes.old }
{
    for (index, row) in state.rows.iter().enumerate() {
        put(outcomes, index, outcome_byte(*row));
    }
}

pub(crate) fn tell_counts(tally: Tally, counts: &mut [u64])
    ensures { counts.new ≡ counts_of tally counts.old }
{
    put(counts, 0, tally.offered);
    put(counts, 1, tally.refused);
    put(counts, 2, tally.waits);
    put(counts, 3, u64::from(tally.sealed));
}
