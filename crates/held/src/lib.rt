// Every meaning that code holds is one of those that the round trips of packed transactions speak of, and every state
// one of those that the promise speaks of. The types of the parameters say it, and the check knows what they say.
#![tactic(auto)]

ghost use Rattle.std.specs.Prelude.{◌≡◌, length};
ghost use Rattle.packed.specs.Encode.{fields_of};
ghost use Rattle.packed.specs.Held.{HeldSet, HeldFields, Held};

use engine::State;
use packed::{Action, Transaction};

fn set_held(set: [u16; 4]) -> bool
    ensures { HeldSet set }
{
    true
}

fn action_held(action: Action) -> bool
    ensures { HeldFields (fields_of action) }
{
    true
}

pub fn held(t: Transaction) -> bool
    ensures { Held t }
{
    // One by one: over `t.actions.iter().all(..)`, or a loop, the proof was not found.
    let [first, second, third, fourth] = t.actions;
    set_held(t.reads)
        & set_held(t.writes)
        & action_held(first.action)
        & action_held(second.action)
        & action_held(third.action)
        & action_held(fourth.action)
}

// The hypothesis `eight` of crates/ordered/proofs/Theorem.antt.
pub fn state_held(state: State) -> bool
    ensures { length state.placed ≡ 8 }
{
    true
}
