// "Place, partition p."
ghost use Rattle.std.specs.Prelude.{◌≡◌, ◌+◌, ◌≤◌, ◌<◌, []};
ghost use Rattle.terms.specs.Reserved.{no_end};
ghost use Rattle.engine.specs.Lent.{joined, counted_of};
ghost use Rattle.engine.specs.LawsPlace.{placing_with, place_plan};
ghost use Rattle.engine.specs.LawsPlan.{if_accepted};
ghost use Rattle.engine.specs.Place.{fits, place_of};

use crate::lent::{Counted, Numbers};
use crate::place::{Placing, place_writes, some_meets_wrong, writes_of};
use crate::{Answer, Row, Worker};
use packed::{Unpacked, unpack_at};
use terms::{Refusal, Refused, refuse_if};
use versions::Version;

// "the one transaction's 4 to 8, then 15", of a transaction whose entry is unpacked.
fn planned(
    numbers: Numbers,
    p: usize,
    transaction: u8,
    entry: Unpacked,
    newest: &[u16],
) -> Result<Placing, Refused>
    requires { (1 ≤ numbers.partitions)
        × ((numbers.next.0 + transaction ≤ no_end) × (transaction < 255)) }
    ensures { result
        ≡ if_accepted (fits numbers.partitions p transaction entry newest.now)
        (placing_with (joined numbers [] []) p transaction entry.meaning) }
{
    entry.verdict?;
    let writes = writes_of(numbers.partitions, p, &entry.meaning);
    refuse_if(
        some_meets_wrong(transaction, &writes, newest),
        Refusal::BrokenTables,
        0,
    )?;
    Ok(Placing {
        transaction,
        position: numbers.next.0 + u64::from(transaction),
        writes,
        count: transaction + 1,
    })
}

// "Steps check 1, 14, 9, 10, 11, .. then, in place and advance, 2 and the one transaction's 4 to 8, then 15". Seven
// parameters, since the tables and the state's parts are lent apart, as `lent::place` promises them.
#[tactic(auto, using(crate::specs::LawsPlan::asked), unfolding(crate::specs::Place::place_verdict))]
pub(crate) fn consider_place(
    rows: &[Row],
    crew: &[Worker],
    numbers: Numbers,
    p: usize,
    log: &[u8],
    newest: &[u16],
    versions: usize,
) -> Result<Placing, Refused>
    ensures { result ≡ place_plan (joined numbers rows.now crew.now) p log.now newest.now versions }
{
    let wrong_length = numbers.is_wrong_for_place(newest.len(), versions);
    refuse_if(wrong_length, Refusal::WrongParameter, 0)?;
    let out_of_range = numbers.is_out_of_range(rows, crew);
    refuse_if(out_of_range, Refusal::StateOutOfRange, 0)?;
    refuse_if(numbers.is_not_planning(), Refusal::WrongMoment, 0)?;
    refuse_if(
        usize::from(numbers.partitions) <= p,
        Refusal::NoSuchParty,
        0,
    )?;
    let transaction = numbers.placed_by(p);
    refuse_if(transaction == numbers.size, Refusal::PartitionDone, 0)?;
    let length = 88 * usize::from(numbers.size);
    refuse_if(log.len() != length, Refusal::WrongLength, 0)?;
    let entry = unpack_at(log, usize::from(transaction), usize::from(numbers.records));
    planned(numbers, p, transaction, entry, newest)
}

// "For each write in that partition, ascending".
pub fn place(
    rows: &[Row],
    crew: &[Worker],
    numbers: Numbers,
    party: usize,
    log: &[u8],
    newest: &mut [u16],
    versions: &mut [Version],
) -> Counted
    ensures { (result
        ≡ counted_of (place_of (joined numbers rows.now crew.now) party log.now
        newest.old versions.old).stepped)
        × ((newest.new
        ≡ (place_of (joined numbers rows.now crew.now) party log.now
        newest.old versions.old).plans.newest)
        × (versions.new
        ≡ (place_of (joined numbers rows.now crew.now) party log.now
        newest.old versions.old).plans.versions)) }
{
    match consider_place(rows, crew, numbers, party, log, newest, versions.len()) {
        Ok(plan) => {
            place_writes(newest, versions, plan);
            Counted {
                answer: Answer::Accepted,
                numbers: numbers.with_placed(party, plan.count),
            }
        }
        Err(why) => Counted {
            answer: why.into(),
            numbers,
        },
    }
}
