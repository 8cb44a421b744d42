// A table as a run of entries: one out, one in, and the first ones emptied.
ghost use Rattle.std.specs.Prelude.{◌≡◌, set};
ghost use Rattle.versions.specs.LawsTable.{slot_named};
ghost use Rattle.versions.specs.Table.{entry_of, put_of, clear_of};

use crate::Version;
use crate::entry::empty;

// The slot that a number of the lent tables names: "a slot or 65,535 for none".
pub(crate) fn slot(number: u16) -> Option<usize>
    ensures { result ≡ slot_named number }
{
    (!terms::is_no_slot(number)).then_some(usize::from(number))
}

// The entry at any slot: past the end of the table it is the empty one.
pub fn entry_at(versions: &[Version], slot: usize) -> Version
    ensures { result ≡ entry_of versions.now slot }
{
    versions.get(slot).copied().unwrap_or(empty())
}

// Entry k of a lent table replaced; past its end nothing changes. Not by `get_mut`: of what is written through its
// answer a proof does not know afterwards what the table holds.
pub fn put<T: Copy>(table: &mut [T], k: usize, entry: T)
    ensures { table.new ≡ set table.old k entry }
{
    if k < table.len() {
        table[k] = entry;
    }
}

// Stores a version at any slot: past the end of the table nothing changes.
pub fn put_at(versions: &mut [Version], slot: usize, version: Version)
    ensures { versions.new ≡ put_of versions.old slot version }
{
    put(versions, slot, version);
}

// "the version table with empty entries": so many of the first ones, at most all.
pub fn clear(versions: &mut [Version], count: usize)
    ensures { versions.new ≡ clear_of versions.old count }
{
    let stop = count.min(versions.len());
    versions[..stop].fill(empty());
}
