// Refusal 14: "the state has a number out of range".
ghost use Rattle.std.specs.Prelude.{◌≡◌, ◌&&◌, ◌||◌, not, ◌+◌, [], ltb, leb, eqb};
ghost use Rattle.terms.specs.Reserved.{no_end};
ghost use Rattle.engine.specs.Counting.{some_below};
ghost use Rattle.engine.specs.Lent.{joined};
ghost use Rattle.engine.specs.LawsHeld.{wrong_among, few_of};
ghost use Rattle.engine.specs.LawsLent.{not_held_by};
ghost use Rattle.engine.specs.Range.{numbers_wrong, placed_wrong, worker_wrong, row_wrong, out_of_range};

use crate::lent::Numbers;
use crate::lent::entries::{row_at, worker_at};
use crate::{Progress, Row, Worker};

// "Executing by a worker that does not hold it"
fn is_not_held(crew: &[Worker], i: usize, row: Row) -> bool
    ensures { result ≡ not_held_by crew.now i row.progress }
{
    match row.progress {
        Progress::Executing(w) => {
            let worker = worker_at(crew, usize::from(w));
            !((w < 8) & !worker.is_idle() & (usize::from(worker.transaction) == i))
        }
        Progress::Unprocessed | Progress::Complete(_) => false,
    }
}

impl Numbers {
    // "F + n above 2^64 − 1"
    #[tactic(auto, using(crate::specs::LawsRange::past_the_end))]
    pub(crate) fn runs_out(self, count: usize) -> bool
        ensures { result ≡ ltb no_end (self.next.0 + count) }
    {
        self.next.0.checked_add(count as u64).is_none()
    }

    // "N, P, W; n above 64; F zero or F + n above 2^64 − 1; batch number not below F"
    fn has_wrong_number(self) -> bool
        ensures { result ≡ numbers_wrong (joined self [] []) }
    {
        let next = self.next.0;
        ((self.records < 1) | (1024 < self.records))
            | ((self.partitions < 1) | (8 < self.partitions))
            | ((self.workers < 1) | (8 < self.workers))
            | (64 < self.size)
            | (next == 0)
            | self.runs_out(usize::from(self.size))
            | (next <= self.batch.0)
    }

    // "a placed count above n, or not 0 past P"
    fn is_wrong_placed(self, p: usize, placed: u8) -> bool
        ensures { result ≡ (ltb self.size placed || (leb self.partitions p && not (eqb placed 0))) }
    {
        (self.size < placed) | ((usize::from(self.partitions) <= p) & (placed != 0))
    }

    // The chain of `is_planning`, which asks another thing of each count.
    fn has_wrong_placed(self) -> bool
        ensures { result ≡ some_below 8 (placed_wrong (joined self [] [])) }
    {
        self.placed
            .iter()
            .enumerate()
            .any(|(p, &placed)| self.is_wrong_placed(p, placed))
    }

    // "a worker past W not idle; a worker's transaction not below n, or one of its counts above 4; a worker holding a
    // transaction that is not Executing by it"
    fn is_wrong_worker(self, rows: &[Row], w: usize, worker: Worker) -> bool
        ensures { result ≡ wrong_among self.workers self.size rows.now w worker }
    {
        !worker.is_idle()
            && ((usize::from(self.workers) <= w)
                | (self.size <= worker.transaction)
                | worker.has_count_above()
                | !row_at(rows, usize::from(worker.transaction)).is_executing_by(w))
    }

    // The transactions of the batch, and never more than there are.
    pub(crate) fn transactions(self) -> usize
        ensures { result ≡ few_of self.size }
    {
        usize::from(self.size.min(64))
    }

    fn has_wrong_worker(self, rows: &[Row], crew: &[Worker]) -> bool
        ensures { result ≡ some_below 8 (worker_wrong (joined self rows.now crew.now)) }
    {
        crew.iter()
            .enumerate()
            .take(8)
            .any(|(w, &worker)| self.is_wrong_worker(rows, w, worker))
    }

    fn has_wrong_row(self, rows: &[Row], crew: &[Worker]) -> bool
        ensures { result ≡ some_below 64 (row_wrong (joined self rows.now crew.now)) }
    {
        rows.iter()
            .enumerate()
            .take(self.transactions())
            .any(|(i, &row)| is_not_held(crew, i, row))
    }

    // 14, of the numbers with the transactions and the workers.
    #[tactic(auto, using(crate::specs::LawsLent::range_told))]
    pub(crate) fn is_out_of_range(self, rows: &[Row], crew: &[Worker]) -> bool
        ensures { result ≡ out_of_range (joined self rows.now crew.now) }
    {
        self.has_wrong_number()
            | self.has_wrong_placed()
            | self.has_wrong_worker(rows, crew)
            | self.has_wrong_row(rows, crew)
    }
}
