// The counts after a step.
ghost use Rattle.std.specs.Prelude.{◌≡◌};
ghost use Rattle.desk.specs.Counts.{one_more, counted, counted_seal, refused_at_once, begun};
ghost use Rattle.desk.specs.LawsLending.{with_numbers};

use crate::Tally;
use engine::lent::Numbers;
use engine::{Answer, State};

// One more, of a count that stays at 2^64 − 1.
fn one_more(count: u64) -> u64
    ensures { result ≡ one_more count }
{
    count.saturating_add(1)
}

// Nothing is offered yet.
pub fn begin(state: State) -> Tally
    ensures { result ≡ begun state }
{
    Tally {
        state,
        offered: 0,
        refused: 0,
        waits: 0,
        sealed: false,
    }
}

impl Tally {
    // The numbers of its state are these; its transactions and workers stay. Field by field: the engine's `State`
    // has the numbers among its own fields.
    pub(crate) fn keep(&mut self, numbers: Numbers)
        ensures { self.new ≡ with_numbers self.old numbers }
    {
        let placed = numbers.placed;
        let state = &mut self.state;
        state.records = numbers.records;
        state.partitions = numbers.partitions;
        state.workers = numbers.workers;
        state.next = numbers.next;
        state.size = numbers.size;
        state.batch = numbers.batch;
        state.placed = placed;
    }

    // A step that the engine has answered; "A wait is an accepted step."
    pub(crate) fn count(&mut self, answer: Answer)
        ensures { self.new ≡ counted self.old answer self.old.state }
    {
        self.offered = one_more(self.offered);
        match answer {
            Answer::Accepted => {}
            Answer::Waits(_) => self.waits = one_more(self.waits),
            Answer::Refused(_, _) => self.refused = one_more(self.refused),
        }
    }

    // A seal that the engine has answered: it is noted where it is accepted.
    pub(crate) fn count_seal(&mut self, answer: Answer)
        ensures { self.new ≡ counted_seal self.old answer self.old.state }
    {
        self.count(answer);
        if matches!(answer, Answer::Accepted) {
            self.sealed = true;
        }
    }

    // A step that asks nothing of the engine "counts as offered and refused".
    pub(crate) fn count_refused(&mut self)
        ensures { self.new ≡ refused_at_once self.old }
    {
        self.offered = one_more(self.offered);
        self.refused = one_more(self.refused);
    }
}
