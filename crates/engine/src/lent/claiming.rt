// "Claim, worker w, transaction i. After planning. The transaction becomes Executing."
ghost use Rattle.std.specs.Prelude.{◌≡◌};
ghost use Rattle.engine.specs.Claim.{claim_of};
ghost use Rattle.engine.specs.Lent.{joined};
ghost use Rattle.engine.specs.LawsClaim.{claim_plan};

use crate::lent::Numbers;
use crate::lent::entries::{row_at, worker_at};
use crate::{Answer, Row, Worker, tables};
use terms::{Refusal, Refused, refuse_if};

// What an accepted claim comes to: how the transaction and the worker go on.
#[derive(Clone, Copy)]
pub struct Claiming {
    pub executing: Row,
    pub starting: Worker,
}

// "Steps check 1, 14, 9, 10, .. 12, 13".
#[tactic(auto, using(crate::specs::LawsPlan::asked))]
pub(crate) fn consider_claim(
    rows: &[Row],
    crew: &[Worker],
    numbers: Numbers,
    w: usize,
    i: usize,
) -> Result<Claiming, Refused>
    ensures { result ≡ claim_plan (joined numbers rows.now crew.now) w i }
{
    let out_of_range = numbers.is_out_of_range(rows, crew);
    refuse_if(out_of_range, Refusal::StateOutOfRange, 0)?;
    refuse_if(numbers.is_not_running(), Refusal::WrongMoment, 0)?;
    refuse_if(numbers.has_no_such_claim(w, i), Refusal::NoSuchParty, 0)?;
    refuse_if(!worker_at(crew, w).is_idle(), Refusal::WorkerBusyOrIdle, 0)?;
    refuse_if(
        !row_at(rows, i).is_unprocessed(),
        Refusal::NotUnprocessed,
        0,
    )?;
    Ok(Claiming {
        executing: Row::executing(w as u8),
        starting: Worker::starting(i as u8),
    })
}

pub fn claim(
    rows: &mut [Row],
    crew: &mut [Worker],
    numbers: Numbers,
    party: usize,
    number: usize,
) -> Answer
    ensures { (result ≡ (claim_of (joined numbers rows.old crew.old) party number).answer)
        × ((rows.new
        ≡ (claim_of (joined numbers rows.old crew.old) party number).state.rows)
        × (crew.new
        ≡ (claim_of (joined numbers rows.old crew.old) party number).state.crew)) }
{
    match consider_claim(rows, crew, numbers, party, number) {
        Ok(plan) => {
            tables::put(rows, number, plan.executing);
            tables::put(crew, party, plan.starting);
            Answer::Accepted
        }
        Err(why) => why.into(),
    }
}
