// A worker and its transaction: whether they fit, and what the worker does next.
ghost use Rattle.std.specs.Prelude.{◌≡◌};
ghost use Rattle.engine.specs.Acts.{marks_below, marks_of, mark_past, unfit, next_carried, act_of};

use crate::{Phase, Worker};
use packed::Transaction;

// "One of: read the next declared read; with none left, decide; carry the next carried write; fill the next write."
#[derive(Clone, Copy)]
pub enum Act {
    Read(u8),
    Decide,
    Carry(u8),
    Fill(u8),
}

impl Worker {
    // How many carry marks there are.
    fn marks(self) -> usize
        ensures { result ≡ marks_of self.carried }
    {
        self.carried.iter().filter(|&&mark| mark).count()
    }

    // "a carry mark past the write count"
    fn has_mark_past(self, writecount: u8) -> bool
        ensures { result ≡ mark_past self.carried writecount }
    {
        self.carried
            .iter()
            .skip(usize::from(writecount))
            .any(|&mark| mark)
    }

    // "a worker has more values than declared reads, a carry mark past the write count, more carries done than marks, a
    // fill done before the last carry, or no fill left"
    #[tactic(auto, unfolding(crate::specs::Acts::unfit))]
    pub(crate) fn is_unfit(self, meaning: Transaction) -> bool
        ensures { result ≡ unfit self meaning }
    {
        match self.phase {
            Phase::Idle => false,
            Phase::Reading { values } => meaning.readcount < values,
            Phase::Decided {
                outcome: _,
                values,
                carries,
                fills,
            } => {
                let marks = self.marks();
                let carries = usize::from(carries);
                meaning.readcount < values
                    || self.has_mark_past(meaning.writecount)
                    || marks < carries
                    || (0 < fills && carries < marks)
                    || meaning.writecount <= fills
            }
        }
    }

    // The next carried write: it has a mark, and as many marks below it as carries are done. A chain of zip, filter and
    // nth takes 1,144 instructions a carry, this 1,066.
    fn next_carried(self, carries: u8) -> u8
        ensures { result ≡ next_carried self.carried carries }
    {
        let mut below = 0;
        for (j, &mark) in self.carried.iter().enumerate() {
            if mark {
                if below == carries {
                    return j as u8;
                }
                below += 1;
            }
        }
        3
    }

    #[tactic(auto, unfolding(crate::specs::Acts::act_of))]
    pub(crate) fn next_act(self, meaning: Transaction) -> Act
        ensures { result ≡ act_of self meaning }
    {
        match self.phase {
            Phase::Reading { values } if values < meaning.readcount => Act::Read(values),
            Phase::Idle | Phase::Reading { .. } => Act::Decide,
            Phase::Decided { carries, .. } if usize::from(carries) < self.marks() => {
                Act::Carry(self.next_carried(carries))
            }
            Phase::Decided { fills, .. } => Act::Fill(fills),
        }
    }
}
