// "Seal. After every transaction is Complete."
ghost use Rattle.std.specs.Prelude.{◌≡◌, [], length};
ghost use Rattle.engine.specs.Counting.{some_below};
ghost use Rattle.engine.specs.Lent.{joined, numbers_of, counted_of};
ghost use Rattle.engine.specs.LawsSeal.{seal_plan};
ghost use Rattle.engine.specs.Moment.{row_unfinished};
ghost use Rattle.engine.specs.Seal.{closed, seal_of};

use crate::lent::entries::row_at;
use crate::lent::{Counted, Numbers};
use crate::{Answer, Row, Worker};
use terms::{BatchNumber, NO_SLOT, Position, Refusal, Refused, refuse_if};
use versions::{Version, clear, collect, newest_sound};

// A transaction of the batch past the lent ones is unfinished too, and so they are asked by their numbers.
pub(crate) fn has_unfinished(rows: &[Row], numbers: Numbers) -> bool
    ensures { result ≡ some_below 64 (row_unfinished (joined numbers rows.now [])) }
{
    (0..numbers.transactions()).any(|i| !row_at(rows, i).is_complete())
}

// "The seal checks 1, 14, 9, 15." Where none refuses, "the next position rises by n, the batch number by 1, and n and
// all placed counts become 0". Its parts are lent apart, as `lent::seal` promises them.
#[tactic(auto, using(crate::specs::LawsPlan::asked), unfolding(crate::specs::Seal::seal_verdict))]
pub(crate) fn consider_seal(
    rows: &[Row],
    crew: &[Worker],
    numbers: Numbers,
    records: &[u64],
    newest: &[u16],
    versions: &[Version],
) -> Result<Numbers, Refused>
    ensures { result ≡ seal_plan (joined numbers rows.now crew.now) records.now newest.now versions.now }
{
    let wrong_length = numbers.is_wrong_for_seal(records.len(), newest.len(), versions.len());
    refuse_if(wrong_length, Refusal::WrongParameter, 0)?;
    let out_of_range = numbers.is_out_of_range(rows, crew);
    refuse_if(out_of_range, Refusal::StateOutOfRange, 0)?;
    let unfinished = has_unfinished(rows, numbers);
    refuse_if((numbers.size == 0) | unfinished, Refusal::WrongMoment, 0)?;
    let sound = newest_sound(versions, newest, numbers.slots());
    refuse_if(!sound, Refusal::BrokenTables, 0)?;
    Ok(Numbers {
        next: Position(numbers.next.0 + u64::from(numbers.size)),
        size: 0,
        batch: BatchNumber(numbers.batch.0 + 1),
        placed: [0; 8],
        ..numbers
    })
}

// "Each record with a newest version takes its contents. The newest-version and version tables are emptied as at
// opening, results and outcomes stay until the next opening".
pub fn seal(
    rows: &[Row],
    crew: &[Worker],
    numbers: Numbers,
    records: &mut [u64],
    newest: &mut [u16],
    versions: &mut [Version],
) -> Counted
    ensures { (result
        ≡ counted_of (seal_of (joined numbers rows.now crew.now) records.old
        newest.old versions.old).stepped)
        × ((records.new
        ≡ (seal_of (joined numbers rows.now crew.now) records.old newest.old
        versions.old).records)
        × ((newest.new
        ≡ (seal_of (joined numbers rows.now crew.now) records.old newest.old
        versions.old).newest)
        × (versions.new
        ≡ (seal_of (joined numbers rows.now crew.now) records.old newest.old
        versions.old).versions))) }
{
    match consider_seal(rows, crew, numbers, records, newest, versions) {
        Ok(after) => {
            collect(versions, newest, records, true);
            newest.fill(NO_SLOT);
            clear(versions, versions.len());
            Counted {
                answer: Answer::Accepted,
                numbers: after,
            }
        }
        Err(why) => Counted {
            answer: why.into(),
            numbers,
        },
    }
}
