// A transaction of the batch alone. `executing` and `complete` are a line each about different cases.
ghost use Rattle.std.specs.Prelude.{◌≡◌};
ghost use Rattle.engine.specs.Rows.{is_unprocessed, is_complete, executing_by, row as row_of};
ghost use Rattle.engine.specs.declared.Progress.TheVariants.{Unprocessed, Executing, Complete};

use crate::{Progress, Row};
use counters::Outcome;

impl Row {
    pub(crate) fn unprocessed() -> Row
        ensures { result ≡ row_of Unprocessed }
    {
        Row {
            progress: Progress::Unprocessed,
        }
    }

    pub(crate) fn executing(worker: u8) -> Row
        ensures { result ≡ row_of (Executing worker) }
    {
        Row {
            progress: Progress::Executing(worker),
        }
    }

    pub(crate) fn complete(outcome: Outcome) -> Row
        ensures { result ≡ row_of (Complete outcome) }
    {
        Row {
            progress: Progress::Complete(outcome),
        }
    }

    pub(crate) fn is_unprocessed(self) -> bool
        ensures { result ≡ is_unprocessed self }
    {
        matches!(self.progress, Progress::Unprocessed)
    }

    // "Executing by" this worker.
    pub(crate) fn is_executing_by(self, worker: usize) -> bool
        ensures { result ≡ executing_by self worker }
    {
        matches!(self.progress, Progress::Executing(by) if usize::from(by) == worker)
    }

    pub(crate) fn is_complete(self) -> bool
        ensures { result ≡ is_complete self }
    {
        matches!(self.progress, Progress::Complete(_))
    }
}
