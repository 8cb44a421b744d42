// Offering steps to the engine. The state is changed in place, since a step by value copies it, and its numbers stand
// beside it until the last step.
ghost use Rattle.std.specs.Prelude.{◌≡◌};
ghost use Rattle.desk.specs.LawsLending.{with_numbers};
ghost use Rattle.desk.specs.Offer.{session_of, offer_of, run_of};

use crate::steps::{Asked, step_at, whole_steps};
use crate::{Step, Tally};
use engine::lent;
use engine::lent::Numbers;
use versions::Version;

// A step goes to the engine or is refused at once. The tables are lent one by one, as the engine takes them.
fn offer(
    tally: &mut Tally,
    numbers: &mut Numbers,
    step: Step,
    log: &[u8],
    records: &mut [u64],
    newest: &mut [u16],
    versions: &mut [Version],
    results: &mut [u64],
)
    ensures { session_of (with_numbers tally.new numbers.new) records.new newest.new versions.new
        results.new
        ≡ offer_of step log.now (session_of (with_numbers tally.old numbers.old) records.old
        newest.old versions.old results.old) }
{
    let rows = &mut tally.state.rows;
    let crew = &mut tally.state.crew;
    match step.asks() {
        Some(Asked::Place { party }) => {
            let placed = lent::place(rows, crew, *numbers, party, log, newest, versions);
            *numbers = placed.numbers;
            tally.count(placed.answer);
        }
        Some(Asked::Claim { party, transaction }) => {
            let answer = lent::claim(rows, crew, *numbers, party, transaction);
            tally.count(answer);
        }
        Some(Asked::Advance { party }) => {
            let answer = lent::advance(
                rows, crew, *numbers, party, log, records, newest, versions, results,
            );
            tally.count(answer);
        }
        Some(Asked::Seal) => {
            let sealed = lent::seal(rows, crew, *numbers, records, newest, versions);
            *numbers = sealed.numbers;
            tally.count_seal(sealed.answer);
        }
        None => tally.count_refused(),
    }
}

// Offers the whole steps in the first `bytes` bytes of a piece of their file, one after the other, by their numbers:
// the definition, `run_of`, and `step_at` name step k. A count beside the piece: `run_of`, of which the theorems of
// `promised` speak, has both.
pub fn offer_all(
    mut tally: Tally,
    piece: &[u8],
    bytes: usize,
    log: &[u8],
    records: &mut [u64],
    newest: &mut [u16],
    versions: &mut [Version],
    results: &mut [u64],
) -> Tally
    ensures { (result ≡ (run_of piece.now bytes log.now (session_of tally records.old
        newest.old versions.old results.old)).tally)
        × ((records.new ≡ (run_of piece.now bytes log.now (session_of tally
        records.old newest.old versions.old results.old)).records)
        × ((newest.new ≡ (run_of piece.now bytes log.now (session_of tally
        records.old newest.old versions.old results.old)).newest)
        × ((versions.new ≡ (run_of piece.now bytes log.now (session_of tally
        records.old newest.old versions.old results.old)).versions)
        × (results.new ≡ (run_of piece.now bytes log.now (session_of tally
        records.old newest.old versions.old results.old)).results)))) }
{
    let mut numbers = lent::numbers_of(tally.state);
    for k in 0..whole_steps(piece.len(), bytes) {
        let step = step_at(piece, k);
        offer(
            &mut tally,
            &mut numbers,
            step,
            log,
            records,
            newest,
            versions,
            results,
        );
    }
    tally.keep(numbers);
    tally
}
