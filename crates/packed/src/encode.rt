// The bytes of a meaning, proper or not.
ghost use Rattle.std.specs.Prelude.{◌≡◌, ◌+◌, ◌≤◌, length};
ghost use Rattle.std.proofs.Math.Seq.{paste};
ghost use Rattle.packed.specs.Encode.{fields as fieldsWith, fields_of, action_bytes, set_bytes, encode};

use crate::{Action, ActionRow, Transaction, fields};
use fields::Fields;

// The fields of an action: its kind, and 0 in a field that it does not have.
impl From<Action> for Fields {
    ghost from_gives = { λ action x. x ≡ fields_of action };

    fn from(action: Action) -> Fields {
        match action {
            Action::Nothing => fields_with(0, 0, 0, 0),
            Action::Set { r, c } => fields_with(1, r, 0, c),
            Action::Add { r, c } => fields_with(2, r, 0, c),
            Action::Take { r, c } => fields_with(3, r, 0, c),
            Action::Copy { r, s } => fields_with(4, r, s, 0),
            Action::Move { r, s } => fields_with(5, r, s, 0),
            Action::Floor { r, c } => fields_with(6, r, 0, c),
        }
    }
}

fn fields_with(kind: u8, r: u16, s: u16, c: u64) -> Fields
    ensures { result ≡ fieldsWith kind r s c }
{
    Fields { kind, r, s, c }
}

fn action_bytes(x: Fields) -> [u8; 16]
    ensures { result ≡ action_bytes x }
{
    let r = little::word_bytes(x.r);
    let s = little::word_bytes(x.s);
    let c = little::long_bytes(x.c);
    [
        x.kind, 0, r[0], r[1], s[0], s[1], 0, 0, c[0], c[1], c[2], c[3], c[4], c[5], c[6], c[7],
    ]
}

#[tactic(auto, unfolding(crate::specs::Encode::set_bytes, little::specs::Little::bytes_of))]
fn set_bytes(set: [u16; 4]) -> [u8; 8]
    ensures { result ≡ set_bytes set }
{
    std::array::from_fn(|k| little::word_bytes(set[k / 2])[k % 2])
}

// Puts some bytes into others from `at` on.
fn paste(b: &mut [u8], at: usize, part: &[u8])
    requires { at + length part.now ≤ length b.old }
    ensures { b.new ≡ paste b.old at part.now (length part.now) }
{
    b[at..at + part.len()].copy_from_slice(part);
}

fn paste_set(b: &mut [u8], at: usize, set: [u16; 4])
    requires { at + 8 ≤ length b.old }
    ensures { b.new ≡ paste b.old at (set_bytes set) 8 }
{
    paste(b, at, &set_bytes(set));
}

fn paste_action(b: &mut [u8], at: usize, row: ActionRow)
    requires { at + 16 ≤ length b.old }
    ensures { b.new ≡ paste b.old at (action_bytes (fields_of row.action)) 16 }
{
    paste(b, at, &action_bytes(Fields::from(row.action)));
}

pub(crate) fn encoded(t: Transaction) -> [u8; 88]
    ensures { result ≡ encode t }
{
    let mut b = [0u8; 88];
    paste(&mut b, 0, &[t.readcount, t.writecount, t.actioncount]);
    paste_set(&mut b, 4, t.reads);
    paste_set(&mut b, 12, t.writes);
    // One by one: a loop would need an invariant, and a law of the actions that are left, for four lines.
    paste_action(&mut b, 24, t.actions[0]);
    paste_action(&mut b, 40, t.actions[1]);
    paste_action(&mut b, 56, t.actions[2]);
    paste_action(&mut b, 72, t.actions[3]);
    b
}
