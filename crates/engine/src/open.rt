// Opening a batch.
ghost use Rattle.std.specs.Prelude.{◌≡◌, not};
ghost use Rattle.engine.specs.Moment.{no_batch};
ghost use Rattle.engine.specs.Open.{wrong_batch_length, each_in_turn, opened, open_of};
ghost use Rattle.engine.specs.LawsOpen.{open_plan};

use crate::{Row, State, Stepped, Worker, lent};
use packed::unpack_at;
use terms::{NO_SLOT, Refusal, Refused, Verdict, refuse_if};
use versions::{Version, clear};

// "opening: length 0, above 5,632, or no multiple of 88"
fn is_wrong_batch_length(bytes: usize) -> bool
    ensures { result ≡ wrong_batch_length bytes }
{
    (bytes == 0) | (5632 < bytes) | (bytes % 88 != 0)
}

// "each transaction in turn 4 to 8". By their numbers: an entry is unpacked by its number in the whole log.
fn each_in_turn(log: &[u8], n: usize, count: usize) -> Verdict
    ensures { result ≡ each_in_turn n log.now count 0 }
{
    for index in 0..count {
        let entry = unpack_at(log, index, n);
        entry.verdict?;
    }
    Ok(())
}

impl State {
    // "Opening checks 1, 14, 9, 2, 3, then each transaction in turn 4 to 8." Where none refuses, the number of
    // transactions.
    #[tactic(auto, unfolding(crate::specs::Open::open_verdict))]
    fn opening(
        &self,
        log: &[u8],
        newest: usize,
        versions: usize,
        results: usize,
    ) -> Result<u8, Refused>
        ensures { result ≡ open_plan self.now log.now newest versions results }
    {
        let numbers = lent::numbers_of(*self);
        let wrong_length = numbers.is_wrong_for_opening(newest, versions, results);
        refuse_if(wrong_length, Refusal::WrongParameter, 0)?;
        let out_of_range = numbers.is_out_of_range(&self.rows, &self.crew);
        refuse_if(out_of_range, Refusal::StateOutOfRange, 0)?;
        refuse_if(self.size != 0, Refusal::WrongMoment, 0)?;
        refuse_if(is_wrong_batch_length(log.len()), Refusal::WrongLength, 0)?;
        let count = log.len() / 88;
        refuse_if(numbers.runs_out(count), Refusal::PositionsRunOut, 0)?;
        each_in_turn(log, usize::from(self.records), count)?;
        Ok(count as u8)
    }

    // "all transactions Unprocessed, all workers idle"
    fn opened(mut self, size: u8) -> State
        ensures { result ≡ opened self size }
    {
        let row = Row::unprocessed();
        let worker = Worker::idle();
        self.size = size;
        self.rows = [row; 64];
        self.crew = [worker; 8];
        self
    }

    // "Opening fills the newest-version table with 65,535, the version table with empty entries .. and the results with
    // 0".
    pub fn open(
        self,
        log: &[u8],
        newest: &mut [u16],
        versions: &mut [Version],
        results: &mut [u64],
    ) -> Stepped
        ensures { (result
            ≡ (open_of self log.now newest.old versions.old results.old
            ).stepped)
            × ((newest.new
            ≡ (open_of self log.now newest.old versions.old results.old
            ).newest)
            × ((versions.new
            ≡ (open_of self log.now newest.old versions.old results.old
            ).versions)
            × (results.new
            ≡ (open_of self log.now newest.old versions.old results.old
            ).results))) }
    {
        match self.opening(log, newest.len(), versions.len(), results.len()) {
            Ok(size) => {
                newest.fill(NO_SLOT);
                clear(versions, versions.len());
                results.fill(0);
                self.opened(size).accepted()
            }
            Err(why) => self.refused_by(why),
        }
    }
}
