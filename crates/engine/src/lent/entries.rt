// One of the lent transactions, and one of the lent workers: a chain of std's methods each, with its own stand-in.
ghost use Rattle.std.specs.Prelude.{◌≡◌};
ghost use Rattle.engine.specs.Lent.{row_of, worker_of};

use crate::{Row, Worker};

// The transaction of any number: past the last it is an Unprocessed one.
pub(crate) fn row_at(rows: &[Row], i: usize) -> Row
    ensures { result ≡ row_of rows.now i }
{
    rows.get(i).copied().unwrap_or(Row::unprocessed())
}

// The worker of any number: past the last it is an idle one.
pub(crate) fn worker_at(crew: &[Worker], w: usize) -> Worker
    ensures { result ≡ worker_of crew.now w }
{
    crew.get(w).copied().unwrap_or(Worker::idle())
}
