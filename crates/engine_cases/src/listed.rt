// The version table as a case lists it: its length, and its entries in the file's order.
use crate::entries::Entry;
use crate::tables::LONGEST;
use crate::{numbers, tables};
use std::io::Read;
use std::iter::{Chain, Copied, Repeat, Take};
use std::slice::Iter;
use std::{io, iter};
use versions::Version;

// A slot, and the version that the case puts there.
type Listed = (usize, Version);

// All zeros, as a file counts what it lacks: `versions::empty` has no previous slot, and Version derives no Default.
const ZEROS: Version = Version {
    begin: 0,
    end: 0,
    previous: 0,
    contents: 0,
    produced: false,
};

// A list keeps 2,048 numbers, of each entry six: so many entries whole, and slot and begin of the next. What it does
// not keep counts as zeros.
const WHOLE: usize = 341;

// Length and count are of the table and the list in the file, and not of what is kept.
#[derive(Clone, Copy)]
pub(crate) struct List {
    pub length: usize,
    // How many entries the case has, also those that are not kept.
    count: usize,
    kept: [Listed; WHOLE + 1],
}

impl List {
    // The list that follows in the file.
    pub fn next(file: &mut impl Read) -> io::Result<List> {
        // Ahead of all that may fail, as in `case`.
        let mut kept = [(0, ZEROS); WHOLE + 1];
        let length = numbers::next(file)? as usize;
        let mut count = 0;
        // By index, and the count from it: the list goes on to an end mark, and each read may fail.
        for index in 0..=LONGEST {
            let Some(listed) = tables::next_entry(file, u64::MAX)? else {
                break;
            };
            if let Some(place) = kept.get_mut(index) {
                *place = listed;
            }
            count = index + 1;
        }
        let (slot, Version { begin, .. }) = kept[WHOLE];
        kept[WHOLE] = (slot, Version { begin, ..ZEROS });
        Ok(List {
            length,
            count,
            kept,
        })
    }

    // The type is written out, since the check states no theorem yet of a function whose result is an `impl Iterator`.
    fn entries(&self) -> Take<Chain<Copied<Iter<'_, Listed>>, Repeat<Listed>>> {
        self.kept
            .iter()
            .copied()
            .chain(iter::repeat((0, ZEROS)))
            .take(self.count)
    }

    // Puts the entries into the table that a call is lent.
    pub fn load(&self, table: &mut [Version]) {
        for (slot, version) in self.entries() {
            versions::put_at(table, slot, version);
        }
    }

    // The line of a table that the call was not lent: as the case has it.
    pub fn print(&self, rt: &impl Print) -> io::Result<()> {
        print!(rt; "versions {}", self.length)?;
        for (slot, version) in self.entries() {
            version.print(rt, slot)?;
        }
        println!(rt)
    }
}
