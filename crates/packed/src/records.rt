// Refusals 5 to 8: the records of an entry that is not malformed. An action is judged by the table of kinds.
ghost use Rattle.std.specs.Prelude.{◌≡◌, ◌≤◌, take};
ghost use Rattle.std.specs.List.{list_any};
ghost use Rattle.packed.specs.Encode.{fields_of};
ghost use Rattle.packed.specs.Fields.{byte_at};
ghost use Rattle.packed.specs.LawsMeaning.{first_undeclared};
ghost use Rattle.packed.specs.LawsSets.{set_proper, sets_proper};
ghost use Rattle.packed.specs.Records.{some_action, too_large, uses_too_large, no_such_record};
ghost use Rattle.packed.specs.Records.{unlisted, reads_unlisted, undeclared_read, writes_unlisted, undeclared_write};

use crate::{Action, Entry, decode, fields};
use terms::Refusal;

// Of four places those within the count.
fn within<T>(places: &[T; 4], count: u8) -> &[T]
    ensures { result.now ≡ take count places.now }
{
    &places[..usize::from(count).min(4)]
}

// "is N or more"
fn too_large(number: u16, n: usize) -> bool
    ensures { result ≡ too_large n number }
{
    n <= usize::from(number)
}

fn some_too_large(records: &[u16], n: usize) -> bool
    ensures { result ≡ list_any (too_large n) records.now }
{
    records.iter().any(|&number| too_large(number, n))
}

#[tactic(auto, using(crate::specs::LawsRecords::or_same), unfolding(crate::specs::Kinds::uses_of))]
fn uses_too_large(action: Action, n: usize) -> bool
    ensures { result ≡ uses_too_large n (fields_of action) }
{
    match action {
        Action::Nothing => false,
        Action::Set { r, .. }
        | Action::Add { r, .. }
        | Action::Take { r, .. }
        | Action::Floor { r, .. } => too_large(r, n),
        Action::Copy { r, s } | Action::Move { r, s } => too_large(s, n) | too_large(r, n),
    }
}

// An action within the count uses a record that is N or more. By index, here and in `undeclared`: the actions are bytes
// of the entry, and a list of the four would decode those past the count too. Check 4 has refused a count above 4, of
// which the definition asks for actions past the entry's end: so these three functions ask for one of at most 4.
pub(crate) fn action_too_large(b: &Entry, n: usize) -> bool
    requires { byte_at b.now 2 ≤ 4 }
    ensures { result ≡ some_action (uses_too_large n) b.now }
{
    (0..usize::from(b[2])).any(|k| uses_too_large(decode::action_at(b, 24 + 16 * k), n))
}

// Refusal 5.
#[tactic(auto, using(crate::specs::LawsMeaning::any_within), unfolding(crate::specs::Records::no_such_record))]
pub(crate) fn has_no_such_record(b: &Entry, n: usize) -> bool
    requires { byte_at b.now 2 ≤ 4 }
    ensures { result ≡ no_such_record n b.now }
{
    let reads = fields::set_at(b, 4);
    let writes = fields::set_at(b, 12);
    some_too_large(within(&reads, b[0]), n)
        || some_too_large(within(&writes, b[1]), n)
        || action_too_large(b, n)
}

// The set ascends strictly to a last record below n, so that neither 5 nor 6 is met in it. By the count, so that the
// compiler has each place as a constant: a loop over the records within it took 45 instructions more for each entry.
fn ascends_below(set: &[u16; 4], count: u8, n: usize) -> bool
    ensures { result ≡ set_proper n set.now count }
{
    let [a, b, c, d] = *set;
    match count {
        0 => true,
        1 => !too_large(a, n),
        2 => a < b && !too_large(b, n),
        3 => a < b && b < c && !too_large(c, n),
        _ => a < b && b < c && c < d && !too_large(d, n),
    }
}

// Neither 5 nor 6 is met in the sets.
pub(crate) fn sets_proper(b: &Entry, n: usize) -> bool
    ensures { result ≡ sets_proper n b.now }
{
    let reads = fields::set_at(b, 4);
    let writes = fields::set_at(b, 12);
    ascends_below(&reads, b[0], n) && ascends_below(&writes, b[1], n)
}

// The record is not declared: it has no place within the count. By the four places, each with its own test of the
// count: with the place found by `position` and compared with it, unpacking took a sixth longer; by `any`, half as long
// again.
fn is_unlisted(set: &[u16; 4], count: u8, number: u16) -> bool
    ensures { result ≡ unlisted set.now count number }
{
    let [a, b, c, d] = *set;
    match number {
        _ if number == a => count < 1,
        _ if number == b => count < 2,
        _ if number == c => count < 3,
        _ => number != d || count < 4,
    }
}

#[tactic(auto, unfolding(crate::specs::Kinds::uses_of))]
fn reads_unlisted(action: Action, set: &[u16; 4], count: u8) -> bool
    ensures { result ≡ reads_unlisted set.now count (fields_of action) }
{
    match action {
        Action::Nothing | Action::Set { .. } => false,
        Action::Add { r, .. } | Action::Take { r, .. } | Action::Floor { r, .. } => {
            is_unlisted(set, count, r)
        }
        Action::Copy { s, .. } => is_unlisted(set, count, s),
        Action::Move { r, s } => is_unlisted(set, count, s) | is_unlisted(set, count, r),
    }
}

#[tactic(auto, unfolding(crate::specs::Kinds::uses_of))]
fn writes_unlisted(action: Action, set: &[u16; 4], count: u8) -> bool
    ensures { result ≡ writes_unlisted set.now count (fields_of action) }
{
    match action {
        Action::Nothing | Action::Floor { .. } => false,
        Action::Set { r, .. }
        | Action::Add { r, .. }
        | Action::Take { r, .. }
        | Action::Copy { r, .. } => is_unlisted(set, count, r),
        Action::Move { r, s } => is_unlisted(set, count, s) | is_unlisted(set, count, r),
    }
}

// Which of the refusals 7 and 8 comes first: one pass over the actions within the count, which stops at a read. A loop,
// since a write that was found is kept on the way.
pub(crate) fn undeclared(b: &Entry) -> Option<Refusal>
    requires { byte_at b.now 2 ≤ 4 }
    ensures { result ≡ first_undeclared (undeclared_read b.now) (undeclared_write b.now) }
{
    let reads = fields::set_at(b, 4);
    let writes = fields::set_at(b, 12);
    let mut found = None;
    for k in 0..usize::from(b[2]) {
        let action = decode::action_at(b, 24 + 16 * k);
        if reads_unlisted(action, &reads, b[0]) {
            return Some(Refusal::UndeclaredRead);
        }
        if writes_unlisted(action, &writes, b[1]) {
            found = Some(Refusal::UndeclaredWrite);
        }
    }
    found
}
