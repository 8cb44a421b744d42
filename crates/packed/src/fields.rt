// The numbers that stand in the bytes of an entry. They are looked up by their offsets in it, which are document 01's
// and by which the definitions name them. So the functions here, in `decode`, `encode` and `form` ask that the bytes
// are there: a part of 8 or 16 bytes would need the same bound where it is cut, and a law of the definition in it.
ghost use Rattle.std.specs.Prelude.{◌≡◌, ◌+◌, ◌≤◌, length};
ghost use Rattle.packed.specs.Fields.{word_at, long_at, set_at, fields_at};

// The fields of an action as they stand in its 16 bytes, whatever its kind makes of them. The kind is its byte here,
// proper or not, as the definition has it; `Action::from` makes the enum of it.
#[derive(Clone, Copy)]
pub struct Fields {
    pub kind: u8,
    pub r: u16,
    pub s: u16,
    pub c: u64,
}

// The 16-bit number from `at` on; `case_files` has it for another length.
fn word_at(b: &[u8], at: usize) -> u16
    requires { at + 2 ≤ length b.now }
    ensures { result ≡ word_at b.now at }
{
    little::word([b[at], b[at + 1]])
}

pub(crate) fn long_at(b: &[u8], at: usize) -> u64
    requires { at + 8 ≤ length b.now }
    ensures { result ≡ long_at b.now at }
{
    little::long(std::array::from_fn(|k| b[at + k]))
}

// The four record numbers from `at` on.
pub(crate) fn set_at(b: &[u8], at: usize) -> [u16; 4]
    requires { at + 8 ≤ length b.now }
    ensures { result ≡ set_at b.now at }
{
    std::array::from_fn(|k| word_at(b, at + 2 * k))
}

// The fields of the action whose 16 bytes start at `at`.
pub(crate) fn fields_at(b: &[u8], at: usize) -> Fields
    requires { at + 16 ≤ length b.now }
    ensures { result ≡ fields_at b.now at }
{
    Fields {
        kind: b[at],
        r: word_at(b, at + 2),
        s: word_at(b, at + 4),
        c: long_at(b, at + 8),
    }
}
