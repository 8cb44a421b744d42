// What the bytes of an entry mean, proper or not.
ghost use Rattle.std.specs.Prelude.{◌≡◌, ◌+◌, ◌≤◌, length};
ghost use Rattle.packed.specs.Fields.{fields_at};
ghost use Rattle.packed.specs.Decode.{action_of, row_at, decode, nothing};

use crate::{Action, ActionRow, Entry, Transaction, fields};
use fields::Fields;

// The action of these fields; a kind outside 1 to 6 is none. Here and in `encode` a kind is its number in the bytes: an
// enum of kinds would be a second list of the cases of `Action`.
impl From<Fields> for Action {
    ghost from_gives = { λ x action. action ≡ action_of x };

    fn from(x: Fields) -> Action {
        let Fields { kind, r, s, c } = x;
        match kind {
            1 => Action::Set { r, c },
            2 => Action::Add { r, c },
            3 => Action::Take { r, c },
            4 => Action::Copy { r, s },
            5 => Action::Move { r, s },
            6 => Action::Floor { r, c },
            _ => Action::Nothing,
        }
    }
}

// The action in the 16 bytes from `at` on.
pub(crate) fn action_at(b: &[u8], at: usize) -> Action
    requires { at + 16 ≤ length b.now }
    ensures { result ≡ action_of (fields_at b.now at) }
{
    Action::from(fields::fields_at(b, at))
}

fn row_at(b: &[u8], at: usize) -> ActionRow
    requires { at + 16 ≤ length b.now }
    ensures { result ≡ row_at b.now at }
{
    ActionRow {
        action: action_at(b, at),
    }
}

pub(crate) fn decoded(b: &Entry) -> Transaction
    ensures { result ≡ decode b.now }
{
    let reads = fields::set_at(b, 4);
    let writes = fields::set_at(b, 12);
    // One by one: with `array::from_fn` over the four the search finds no proof.
    let actions = [row_at(b, 24), row_at(b, 40), row_at(b, 56), row_at(b, 72)];
    Transaction {
        readcount: b[0],
        writecount: b[1],
        actioncount: b[2],
        reads,
        writes,
        actions,
    }
}

// The all-zero meaning.
pub fn no_meaning() -> Transaction
    ensures { result ≡ nothing }
{
    let row = ActionRow {
        action: Action::Nothing,
    };
    Transaction {
        readcount: 0,
        writecount: 0,
        actioncount: 0,
        reads: [0; 4],
        writes: [0; 4],
        actions: [row; 4],
    }
}
