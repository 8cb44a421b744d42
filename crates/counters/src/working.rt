// The memory that a transaction's actions work on while it is decided. The actions change it in place, since a copy for
// each action costs more than the action.
ghost use Rattle.std.specs.Prelude.{◌≡◌};
ghost use Rattle.counters.specs.LawsPlaces.{place_found};
ghost use Rattle.counters.specs.Working.{place_in, contents_in, written, start_of};

use packed::Transaction;

// The transaction's own copy: of each declared read what it holds now, of each declared write the new contents and
// whether an action reached it. Contents and marks are two arrays, as a decision has them and as the definitions say.
#[derive(Clone, Copy, Debug, PartialEq, Eq)]
pub struct WorkingCopy {
    pub values: [u64; 4],
    pub contents: [u64; 4],
    pub reached: [bool; 4],
}

// The place of a record among the first `count` of a set. By place, in one test: `position`, and the count compared
// after it, takes 28 instructions more for each decision.
fn place_in(set: &[u16; 4], count: u8, number: u16) -> Option<usize>
    ensures { result ≡ place_found (place_in set.now count number) }
{
    (0..4).find(|&place| place < usize::from(count) && set[place] == number)
}

impl WorkingCopy {
    // Before the first action: the values read, and nothing reached.
    pub(crate) fn of(values: [u64; 4]) -> WorkingCopy
        ensures { result ≡ start_of values }
    {
        WorkingCopy {
            values,
            contents: [0; 4],
            reached: [false; 4],
        }
    }

    // What a record holds.
    pub(crate) fn contents_in(&self, meaning: &Transaction, number: u16) -> u64
        ensures { result ≡ contents_in meaning.now self.now number }
    {
        place_in(&meaning.reads, meaning.readcount, number).map_or(0, |place| self.values[place])
    }

    // A record becomes `value`.
    pub(crate) fn write(&mut self, meaning: &Transaction, number: u16, value: u64)
        ensures { self.new ≡ written meaning.now self.old number value }
    {
        if let Some(read) = place_in(&meaning.reads, meaning.readcount, number) {
            self.values[read] = value;
        }
        if let Some(write) = place_in(&meaning.writes, meaning.writecount, number) {
            self.contents[write] = value;
            self.reached[write] = true;
        }
    }
}
