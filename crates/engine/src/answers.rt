// The answers of the calls.
ghost use Rattle.std.specs.Prelude.{◌≡◌};
ghost use Rattle.engine.specs.Answers.{answer_number, answer_place, answer_position, accept};
ghost use Rattle.engine.specs.Answers.{refuse_by};
ghost use Rattle.engine.specs.declared.Answer.TheVariants.{Refused};

use crate::{Answer, State, Stepped};
use terms::Refused;

impl Answer {
    // The refusal number, and 0 for an accepted step or a wait.
    pub fn number(self) -> u8
        ensures { result ≡ answer_number self }
    {
        match self {
            Answer::Accepted | Answer::Waits(_) => 0,
            Answer::Refused(refusal, _) => refusal.number(),
        }
    }

    // The place of a refusal, else 0.
    pub fn place(self) -> usize
        ensures { result ≡ answer_place self }
    {
        match self {
            Answer::Accepted | Answer::Waits(_) => 0,
            Answer::Refused(_, place) => place.transaction,
        }
    }

    // The position waited for, else 0.
    pub fn position(self) -> u64
        ensures { result ≡ answer_position self }
    {
        match self {
            Answer::Waits(position) => position.0,
            Answer::Accepted | Answer::Refused(_, _) => 0,
        }
    }
}

impl State {
    // A refusal that was found, with its place.
    pub(crate) fn refused_by(self, why: Refused) -> Stepped
        ensures { result ≡ refuse_by self why.refusal why.place }
    {
        Stepped {
            answer: why.into(),
            state: self,
        }
    }

    pub(crate) fn accepted(self) -> Stepped
        ensures { result ≡ accept self }
    {
        Stepped {
            answer: Answer::Accepted,
            state: self,
        }
    }
}

impl From<Refused> for Answer {
    ghost from_gives = { λ why answer. answer ≡ Refused why.refusal why.place };

    fn from(why: Refused) -> Answer {
        Answer::Refused(why.refusal, why.place)
    }
}
