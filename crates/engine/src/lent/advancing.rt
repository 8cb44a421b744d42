// "Advance, worker w."
ghost use Rattle.std.specs.Prelude.{◌≡◌, ◌*◌, set};
ghost use Rattle.engine.specs.Advance.{advance_of, with_filled, with_results};
ghost use Rattle.engine.specs.Lent.{joined};
ghost use Rattle.engine.specs.LawsAdvance.{row_left, answered, rows_by, crew_by, versions_by, results_by};
ghost use Rattle.engine.specs.LawsLentAdvance.{aim_by, turn_with};

use crate::advance::{Aim, fill_one, give_results};
use crate::lent::Numbers;
use crate::lent::entries::worker_at;
use crate::moves::Move;
use crate::{Answer, Row, Worker, tables};
use packed::unpack_at;
use terms::{Refusal, Refused, refuse_if};
use versions::Version;

// "Steps check .. 14, 9, 10, .. 12, .. then, in place and advance, 2 and the one transaction's 4 to 8, then 15": what
// comes after 1.
pub(crate) fn consider_advance(
    rows: &[Row],
    crew: &[Worker],
    numbers: Numbers,
    w: usize,
    log: &[u8],
) -> Result<Aim, Refused>
    ensures { result ≡ aim_by rows.now crew.now numbers w log.now }
{
    let out_of_range = numbers.is_out_of_range(rows, crew);
    refuse_if(out_of_range, Refusal::StateOutOfRange, 0)?;
    refuse_if(numbers.is_not_running(), Refusal::WrongMoment, 0)?;
    refuse_if(usize::from(numbers.workers) <= w, Refusal::NoSuchParty, 0)?;
    let worker = worker_at(crew, w);
    refuse_if(worker.is_idle(), Refusal::WorkerBusyOrIdle, 0)?;
    let wrong_length = log.len() != 88 * usize::from(numbers.size);
    refuse_if(wrong_length, Refusal::WrongLength, 0)?;
    let entry = unpack_at(
        log,
        usize::from(worker.transaction),
        usize::from(numbers.records),
    );
    entry.verdict?;
    let meaning = entry.meaning;
    refuse_if(worker.is_unfit(meaning), Refusal::BrokenTables, 0)?;
    Ok(Aim {
        worker,
        meaning,
        bound: numbers.slots(),
        position: numbers.position_of(worker.transaction),
    })
}

// What an advance changes, decided before anything is touched; "steps check 1" first. Nine parameters, since the tables
// and the state's parts are lent apart, as `lent::advance` promises them.
#[tactic(auto, unfolding(crate::specs::LawsLentAdvance::turn_with))]
pub(crate) fn turn(
    rows: &[Row],
    crew: &[Worker],
    numbers: Numbers,
    party: usize,
    log: &[u8],
    records: &[u64],
    newest: &[u16],
    versions: &[Version],
    four: usize,
) -> Result<Move, Refused>
    ensures { result
        ≡ turn_with rows.now crew.now numbers party log.now records.now newest.now
        versions.now four }
{
    let wrong_table = numbers.is_wrong_for_advance(
        records.len(),
        newest.len(),
        versions.len(),
        four,
    );
    refuse_if(wrong_table, Refusal::WrongParameter, 0)?;
    let aim = consider_advance(rows, crew, numbers, party, log)?;
    aim.moved(records, newest, versions)
}

// The transaction as the worker leaves it, where it does.
pub(crate) fn leave(rows: &mut [Row], transaction: u8, left: Option<Row>)
    ensures { rows.new ≡ row_left rows.old transaction left }
{
    if let Some(row) = left {
        tables::put(rows, usize::from(transaction), row);
    }
}

// The answer, and what the advance changes; a refused one changes nothing. Its parts are lent apart as in `turn`.
fn carry_out(
    rows: &mut [Row],
    crew: &mut [Worker],
    party: usize,
    transaction: u8,
    versions: &mut [Version],
    results: &mut [u64],
    turn: Result<Move, Refused>,
) -> Answer
    ensures answer { result ≡ answered turn }
    ensures rows { rows.new ≡ rows_by turn rows.old transaction }
    ensures crew { crew.new ≡ crew_by turn crew.old party }
    ensures versions { versions.new ≡ versions_by turn versions.old }
    ensures results { results.new ≡ results_by turn results.old transaction }
{
    match turn {
        Ok(step) => {
            leave(rows, transaction, step.left);
            tables::put(crew, party, step.worker);
            fill_one(versions, step.fill);
            give_results(results, transaction, step.results);
            step.answer()
        }
        Err(why) => Answer::from(why),
    }
}

// "One of: read the next declared read; with none left, decide; carry the next carried write; fill the next write."
pub fn advance(
    rows: &mut [Row],
    crew: &mut [Worker],
    numbers: Numbers,
    party: usize,
    log: &[u8],
    records: &[u64],
    newest: &[u16],
    versions: &mut [Version],
    results: &mut [u64],
) -> Answer
    ensures { (result
        ≡ (advance_of (joined numbers rows.old crew.old) party log.now
        records.now newest.now versions.old results.old).stepped.answer)
        × ((rows.new
        ≡ (advance_of (joined numbers rows.old crew.old) party log.now
        records.now newest.now versions.old results.old).stepped.state.rows)
        × ((crew.new
        ≡ (advance_of (joined numbers rows.old crew.old) party log.now
        records.now newest.now versions.old results.old).stepped.state.crew)
        × ((versions.new
        ≡ (advance_of (joined numbers rows.old crew.old) party log.now
        records.now newest.now versions.old results.old).versions)
        × (results.new
        ≡ (advance_of (joined numbers rows.old crew.old) party log.now
        records.now newest.now versions.old results.old).results)))) }
{
    let transaction = worker_at(crew, party).transaction;
    let turn = turn(
        rows,
        crew,
        numbers,
        party,
        log,
        records,
        newest,
        versions,
        results.len(),
    );
    carry_out(rows, crew, party, transaction, versions, results, turn)
}
