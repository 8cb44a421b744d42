// What the seal does with the newest versions: whether all are produced, and their contents taken.
ghost use Rattle.std.specs.Prelude.{◌≡◌, true};
ghost use Rattle.versions.specs.LawsTable.{slot_named};
ghost use Rattle.versions.specs.Seal.{slot_of, slot_sound, newest_sound_of, collect_of};
ghost use Rattle.versions.specs.Table.{entry_of};

use crate::Version;
use crate::table::{self, entry_at};

// A newest slot leaves the table sound: it is none, or a slot below the limit whose version is produced.
pub fn is_sound(versions: &[Version], number: u16, limit: usize) -> bool
    ensures { result ≡ slot_sound number (entry_of versions.now number) limit }
{
    table::slot(number).is_none_or(|slot| slot < limit && entry_at(versions, slot).produced)
}

// Every newest slot is 65,535, or below the bound, 4n, and in the table, with a produced version. What else it may be
// is refused at the seal: "neither 65,535 nor below 4n", "a newest version is not produced".
pub fn newest_sound(versions: &[Version], newest: &[u16], bound: usize) -> bool
    ensures { result ≡ newest_sound_of versions.now newest.now bound }
{
    let limit = bound.min(versions.len());
    newest
        .iter()
        .all(|&number| is_sound(versions, number, limit))
}

// A record's newest slot: none for a record that the newest-version table does not have.
pub fn newest_slot(newest: &[u16], number: usize) -> Option<usize>
    ensures { result ≡ slot_named (slot_of newest.now number) }
{
    newest.get(number).and_then(|&named| table::slot(named))
}

// "Each record with a newest version takes its contents." With `on` false nothing changes. A record that the
// newest-version table does not have has no newest version, so where the table ends nothing is left to take. Not by a
// zip with `newest`: a proof then does not know the records.
pub fn collect(versions: &[Version], newest: &[u16], records: &mut [u64], on: bool)
    ensures { records.new ≡ collect_of versions.now newest.now records.old on }
{
    if !on {
        return;
    }
    for (number, record) in records.iter_mut().enumerate() {
        if newest.len() <= number {
            break;
        }
        if let Some(slot) = newest_slot(newest, number) {
            *record = entry_at(versions, slot).contents;
        }
    }
}
