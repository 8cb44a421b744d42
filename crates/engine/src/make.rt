// Making a store.
ghost use Rattle.std.specs.Prelude.{◌≡◌};
ghost use Rattle.engine.specs.Make.{wrong_parameter, make_of};
ghost use Rattle.engine.specs.States.{unopened};

use crate::{Made, Row, State, Worker};
use terms::{BatchNumber, Position, Refusal};

fn is_wrong_parameter(n: usize, p: usize, w: usize, start: Position) -> bool
    ensures { result ≡ wrong_parameter n p w start.0 }
{
    ((n < 1) | (1024 < n)) | ((p < 1) | (8 < p)) | ((w < 1) | (8 < w)) | (start.0 == 0)
}

// A store with no batch open.
#[tactic(auto, unfolding(crate::specs::States::unopened))]
fn fresh(n: u16, p: u8, w: u8, start: Position) -> State
    ensures { result ≡ unopened n p w start.0 }
{
    State {
        records: n,
        partitions: p,
        workers: w,
        next: start,
        size: 0,
        batch: BatchNumber(0),
        placed: [0; 8],
        rows: [Row::unprocessed(); 64],
        crew: [Worker::idle(); 8],
    }
}

impl State {
    // A store of n records, p partitions and w workers whose first transaction gets the position given.
    #[tactic(auto, unfolding(crate::specs::Make::make_of))]
    pub fn make(n: usize, p: usize, w: usize, start: Position) -> Made
        ensures { result ≡ make_of n p w start.0 }
    {
        if is_wrong_parameter(n, p, w, start) {
            return Made {
                verdict: Err(Refusal::WrongParameter.at(0)),
                state: fresh(0, 0, 0, Position(0)),
            };
        }
        Made {
            verdict: Ok(()),
            state: fresh(n as u16, p as u8, w as u8, start),
        }
    }
}
