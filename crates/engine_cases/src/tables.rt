// Tables as they stand in a case file, and those that a call is lent.
use crate::entries::Entry;
use crate::numbers;
use std::io;
use std::io::Read;
use versions::Version;

// A table has at most this many entries.
pub(crate) const LONGEST: usize = 70000;

// The tables that the caller lends, and the log.
#[derive(Drop)]
pub(crate) struct Tables<'a> {
    pub newest: &'a mut [u16],
    pub versions: &'a mut [Version],
    pub records: &'a mut [u64],
    pub results: &'a mut [u64],
    pub log: &'a [u8],
}

// The next entry, after its index; None where the end mark stands.
pub(crate) fn next_entry<T: Entry>(
    file: &mut impl Read,
    end: u64,
) -> io::Result<Option<(usize, T)>> {
    let index = numbers::next(file)?;
    if index >= end {
        return Ok(None);
    }
    Ok(Some((index as usize, T::next(file)?)))
}

// The entries that the file names, up to the end mark. One past the table's end is passed over.
pub(crate) fn entries<T: Entry>(file: &mut impl Read, table: &mut [T], end: u64) -> io::Result<()> {
    for _ in 0..=end.min(LONGEST as u64) {
        let Some((index, entry)) = next_entry(file, end)? else {
            break;
        };
        if let Some(place) = table.get_mut(index) {
            *place = entry;
        }
    }
    Ok(())
}

// The next table, in as much of the space as it is long.
pub(crate) fn next<'a, T: Entry>(
    file: &mut impl Read,
    space: &'a mut [T],
) -> io::Result<&'a mut [T]> {
    let length = space.len().min(numbers::next(file)? as usize);
    let table = &mut space[..length];
    entries(file, table, u64::MAX)?;
    Ok(table)
}

// The log: its length in bytes, the bytes, and zeros up to a multiple of 8.
pub(crate) fn log<'a>(file: &mut impl Read, space: &'a mut [u8]) -> io::Result<&'a [u8]> {
    let length = space.len().min(numbers::next(file)? as usize);
    let log = &mut space[..length];
    reads::fill(file, log)?;
    let mut rest = [0; 7];
    reads::fill(file, &mut rest[..(8 - length % 8) % 8])?;
    Ok(log)
}
