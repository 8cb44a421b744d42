// Refusal 4: "a count above 4, a kind outside 1–6 within the count, or a byte that must be zero is not". Eight bytes
// are looked at as one number, in which a kind is a number too: the bytes from some place on are zero where the number
// is below a power of 256. Looked at one by one they took over 1.3 times as many instructions as C does
// (docs/PERFORMANCE.md, "Unpacking one entry").
ghost use Rattle.std.specs.Prelude.{◌≡◌, ◌+◌, ◌*◌, ◌<◌, ◌≤◌, length, ltb};
ghost use Rattle.packed.specs.Fields.{byte_at, set_at};
ghost use Rattle.packed.specs.Form.{count_above, past_set, malformed};
ghost use Rattle.packed.specs.LawsActions.{within_malformed, action_malformed, actions_malformed};
ghost use Rattle.packed.specs.LawsPast.{rest_nonzero};

use crate::{Entry, fields};

fn count_above(b: &Entry) -> bool
    ensures { result ≡ count_above b.now }
{
    (4 < b[0]) | (4 < b[1]) | (4 < b[2])
}

// An entry of the set at `at` is past its count and not zero.
fn past_set(b: &[u8], at: usize, count: u8) -> bool
    requires { at + 8 ≤ length b.now }
    ensures { result ≡ past_set (set_at b.now at) count }
{
    let set = fields::long_at(b, at);
    match count {
        0 => set != 0,
        1 => 65536 <= set,
        2 => 4294967296 <= set,
        3 => 281474976710656 <= set,
        _ => false,
    }
}

// One of the bytes 20 to 23 is not zero.
fn rest_nonzero(b: &Entry) -> bool
    ensures { result ≡ rest_nonzero b.now }
{
    4294967296 <= fields::long_at(b, 16)
}

// An action within the count; `head` is the number in its first eight bytes, which are "kind (1), zero (1),
// record r (2), record s (2), zero (2)".
#[tactic(auto, unfolding(crate::specs::LawsActions::within_malformed))]
fn within_malformed(head: u64, c: u64) -> bool
    ensures { result ≡ within_malformed head c }
{
    let kind = head % 65536;
    match kind {
        1 | 2 | 3 | 6 => 4294967296 <= head,
        4 | 5 => (281474976710656 <= head) | (c != 0),
        _ => true,
    }
}

// Action k has a kind outside 1–6 within the count, or a byte that must be zero and is not.
fn action_malformed(b: &Entry, k: usize) -> bool
    requires { k < 4 }
    ensures { result ≡ action_malformed b.now (24 + 16 * k) (ltb k (byte_at b.now 2)) }
{
    let at = 24 + 16 * k;
    let head = fields::long_at(b, at);
    let c = fields::long_at(b, at + 8);
    if k < usize::from(b[2]) {
        within_malformed(head, c)
    } else {
        (head != 0) | (c != 0)
    }
}

fn actions_malformed(b: &Entry) -> bool
    ensures { result ≡ actions_malformed b.now }
{
    (0..4).any(|k| action_malformed(b, k))
}

#[tactic(auto, using(crate::specs::LawsActions::malformed_parts))]
pub(crate) fn is_malformed(b: &Entry) -> bool
    ensures { result ≡ malformed b.now }
{
    count_above(b)
        || b[3] != 0
        || rest_nonzero(b)
        || past_set(b, 4, b[0])
        || past_set(b, 12, b[1])
        || actions_malformed(b)
}
