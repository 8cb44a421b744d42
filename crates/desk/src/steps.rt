// A step as it stands in its file, and what it asks of the engine.
ghost use Rattle.std.specs.Prelude.{◌≡◌, ◌<◌, ◌/◌, length};
ghost use Rattle.desk.specs.Steps.{step_at, whole_steps};
ghost use Rattle.desk.specs.LawsSteps.{asked_of};

use crate::Step;

// What a step asks of the engine; "a seal's party is not read".
#[derive(Clone, Copy, Debug, PartialEq, Eq)]
pub(crate) enum Asked {
    Place { party: usize },
    Claim { party: usize, transaction: usize },
    Advance { party: usize },
    Seal,
}

// Step k of a run of bytes.
pub(crate) fn step_at(steps: &[u8], k: usize) -> Step
    requires { k < length steps.now / 4 }
    ensures { result ≡ step_at steps.now k }
{
    let kind = steps[4 * k];
    let party = steps[4 * k + 1];
    let transaction = little::word([steps[4 * k + 2], steps[4 * k + 3]]);
    Step {
        kind,
        party,
        transaction,
    }
}

// How many steps the first `bytes` of so many bytes hold: "a short last step is dropped".
pub(crate) fn whole_steps(size: usize, bytes: usize) -> usize
    ensures { result ≡ whole_steps size bytes }
{
    bytes.min(size) / 4
}

impl Step {
    // Nothing is asked by "a step of another kind, or with a nonzero transaction where none belongs".
    pub(crate) fn asks(self) -> Option<Asked>
        ensures { result ≡ asked_of self }
    {
        let party = usize::from(self.party);
        match (self.kind, self.transaction) {
            (1, 0) => Some(Asked::Place { party }),
            (2, transaction) => Some(Asked::Claim {
                party,
                transaction: usize::from(transaction),
            }),
            (3, 0) => Some(Asked::Advance { party }),
            (4, 0) => Some(Asked::Seal),
            _ => None,
        }
    }
}
