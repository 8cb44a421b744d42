// "Deciding runs the actions on the values read, choosing outcome, new contents (0 for a carried write until its carry)
// and carries."
ghost use Rattle.std.specs.Prelude.{◌≡◌};
ghost use Rattle.counters.specs.Actions.{goes_on, act, act_all, actions_of};
ghost use Rattle.counters.specs.Deciding.{unreached, decide_of};
ghost use Rattle.counters.specs.LawsActions.{attempted};
ghost use Rattle.counters.specs.Working.{memory_of};

use crate::working::WorkingCopy;
use crate::{Decision, Outcome};
use packed::{Action, Transaction};

// Why no action is run after the one that answers it, and nothing is kept.
#[derive(Clone, Copy, Debug, PartialEq, Eq)]
pub struct Aborted;

impl WorkingCopy {
    // What an action does, by the table of kinds.
    fn one_action(&mut self, meaning: &Transaction, action: Action) -> Result<(), Aborted>
        ensures { attempted result self.new ≡ act (memory_of meaning.now) action self.old }
    {
        match action {
            Action::Nothing => {}
            Action::Set { r, c } => self.write(meaning, r, c),
            Action::Add { r, c } => {
                let sum = self.contents_in(meaning, r).wrapping_add(c);
                self.write(meaning, r, sum);
            }
            Action::Take { r, c } => match self.contents_in(meaning, r).checked_sub(c) {
                Some(left) => self.write(meaning, r, left),
                None => return Err(Aborted),
            },
            Action::Copy { r, s } => {
                let held = self.contents_in(meaning, s);
                self.write(meaning, r, held);
            }
            Action::Move { r, s } => {
                let target = self.contents_in(meaning, r);
                let source = self.contents_in(meaning, s);
                self.write(meaning, r, target.wrapping_add(source));
                self.write(meaning, s, 0);
            }
            Action::Floor { r, c } => {
                if self.contents_in(meaning, r) < c {
                    return Err(Aborted);
                }
            }
        }
        Ok(())
    }

    // The actions within the count, in order, up to the first that aborts.
    fn all_actions(&mut self, meaning: &Transaction) -> Result<(), Aborted>
        ensures { attempted result self.new
            ≡ act_all (memory_of meaning.now) (actions_of meaning.now) (goes_on self.old) }
    {
        let within = usize::from(meaning.actioncount).min(4);
        for row in &meaning.actions[..within] {
            self.one_action(meaning, row.action)?;
        }
        Ok(())
    }
}

// The declared writes that no action reached.
fn unreached(writecount: u8, reached: [bool; 4]) -> [bool; 4]
    ensures { result ≡ unreached writecount reached }
{
    std::array::from_fn(|j| (j < usize::from(writecount)) & !reached[j])
}

// What a transaction decides on the values read.
pub fn decide(meaning: Transaction, values: [u64; 4]) -> Decision
    ensures { result ≡ decide_of meaning values }
{
    let mut copy = WorkingCopy::of(values);
    match copy.all_actions(&meaning) {
        Ok(()) => Decision {
            outcome: Outcome::Committed,
            contents: copy.contents,
            carried: unreached(meaning.writecount, copy.reached),
        },
        Err(Aborted) => Decision {
            outcome: Outcome::Aborted,
            contents: [0; 4],
            carried: unreached(meaning.writecount, [false; 4]),
        },
    }
}
