// "Claim, worker w, transaction i. After planning. The transaction becomes Executing."
ghost use Rattle.std.specs.Prelude.{◌≡◌};
ghost use Rattle.engine.specs.Claim.{claim_of};

use crate::{State, Stepped, lent};

impl State {
    pub fn claim(mut self, w: usize, i: usize) -> Stepped
        ensures { result ≡ claim_of self w i }
    {
        let numbers = lent::numbers_of(self);
        let answer = lent::claim(&mut self.rows, &mut self.crew, numbers, w, i);
        Stepped {
            answer,
            state: self,
        }
    }
}
