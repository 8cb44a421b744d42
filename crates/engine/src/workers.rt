// A worker alone.
ghost use Rattle.std.specs.Prelude.{◌≡◌};
ghost use Rattle.engine.specs.Workers.{is_idle, idle_worker, claimed, count_above, with_value, count_in};
ghost use Rattle.engine.specs.Workers.{with_decision, carried_on, with_carry, with_phase};

use crate::{Phase, Worker, tables};
use counters::Decision;

impl Phase {
    // The values that a worker has read.
    pub(crate) fn values_read(self) -> u8
        ensures { result ≡ count_in self }
    {
        match self {
            Phase::Idle => 0,
            Phase::Reading { values } | Phase::Decided { values, .. } => values,
        }
    }

    // One more carry is done.
    fn carried_on(self) -> Phase
        ensures { result ≡ carried_on self }
    {
        match self {
            Phase::Decided {
                outcome,
                values,
                carries,
                fills,
            } => Phase::Decided {
                outcome,
                values,
                carries: carries.saturating_add(1),
                fills,
            },
            Phase::Idle | Phase::Reading { .. } => self,
        }
    }
}

impl Worker {
    // The idle worker, all zero.
    pub(crate) fn idle() -> Worker
        ensures { result ≡ idle_worker }
    {
        Worker {
            phase: Phase::Idle,
            transaction: 0,
            values: [0; 4],
            contents: [0; 4],
            carried: [false; 4],
        }
    }

    // A worker that has just claimed a transaction.
    pub(crate) fn starting(transaction: u8) -> Worker
        ensures { result ≡ claimed transaction }
    {
        Worker {
            phase: Phase::Reading { values: 0 },
            transaction,
            ..Worker::idle()
        }
    }

    // One line, as `Row::is_unprocessed` is about another enum.
    pub(crate) fn is_idle(self) -> bool
        ensures { result ≡ is_idle self }
    {
        matches!(self.phase, Phase::Idle)
    }

    // "one of its counts above 4"
    pub(crate) fn has_count_above(self) -> bool
        ensures { result ≡ count_above self }
    {
        match self.phase {
            Phase::Idle => false,
            Phase::Reading { values } => 4 < values,
            Phase::Decided {
                outcome: _,
                values,
                carries,
                fills,
            } => 4 < values || 4 < carries || 4 < fills,
        }
    }

    pub(crate) fn with_value(self, k: u8, number: u64) -> Worker
        ensures { result ≡ with_value self k number }
    {
        let mut values = self.values;
        tables::put(&mut values, usize::from(k), number);
        Worker {
            phase: Phase::Reading {
                values: k.saturating_add(1),
            },
            values,
            ..self
        }
    }

    // "once decided, also outcome, new contents, carry marks and how many carries and fills are done". An array goes
    // by a variable, as in `joined`.
    pub(crate) fn with_decision(self, decision: Decision) -> Worker
        ensures { result ≡ with_decision self decision }
    {
        let contents = decision.contents;
        let carried = decision.carried;
        Worker {
            phase: Phase::Decided {
                outcome: decision.outcome,
                values: self.phase.values_read(),
                carries: 0,
                fills: 0,
            },
            contents,
            carried,
            ..self
        }
    }

    // "its new version holds the preceding version's contents"
    pub(crate) fn with_carry(self, j: u8, number: u64) -> Worker
        ensures { result ≡ with_carry self j number }
    {
        let mut contents = self.contents;
        tables::put(&mut contents, usize::from(j), number);
        Worker {
            phase: self.phase.carried_on(),
            contents,
            ..self
        }
    }

    pub(crate) fn with_phase(self, phase: Phase) -> Worker
        ensures { result ≡ with_phase self phase }
    {
        Worker { phase, ..self }
    }
}
