// What the program reads. "A missing file counts as empty."
ghost use Rattle.std.specs.Prelude.{◌≡◌, ◌≤◌, length, IfOk};

use crate::Part;
use std::fs::File;
use std::io;
use std::io::{Read, Seek, SeekFrom};
use std::rt::Files;

// How long a file is; 0 where not even a first byte can be read.
fn size_in<F: Read + Seek>(file: &mut F) -> usize {
    let mut first = [0u8; 1];
    let got = reads::fill(file, &mut first).unwrap_or(0);
    let length = file.seek(SeekFrom::End(0)).unwrap_or(0);
    if got < 1 {
        return 0;
    }
    length as usize
}

// All of an open file.
fn all_of<F: Read + Seek>(mut file: F) -> Part<F> {
    let length = size_in(&mut file);
    Part {
        file: Some(file),
        start: 0,
        length,
    }
}

fn nothing<F>() -> Part<F> {
    Part {
        file: None,
        start: 0,
        length: 0,
    }
}

fn opened<R: Files>(rt: &R, name: &str) -> Part<R::File> {
    match File::open(rt, name) {
        Ok(file) => all_of(file),
        Err(_) => nothing(),
    }
}

// All of a file; nothing where it cannot be opened. A name that is not UTF-8 names no file that can be.
pub fn whole<R: Files>(rt: &R, name: &[u8]) -> Part<R::File> {
    match str::from_utf8(name) {
        Ok(text) => opened(rt, text),
        Err(_) => nothing(),
    }
}

pub fn close<F: Drop>(part: Part<F>) {
    drop(part);
}

// A place in a file that is surely below 2^63.
fn place_of(start: usize) -> u64 {
    if start < 9223372036854775808 {
        start as u64
    } else {
        0
    }
}

// The file of a part is to be read on from where the part starts. Where there is nothing to read, nothing is sought:
// such a file may be none that can be.
pub(crate) fn at_start<F: Seek>(part: &mut Part<F>) -> io::Result<()> {
    if part.length == 0 {
        return Ok(());
    }
    let place = place_of(part.start);
    if let Some(file) = &mut part.file {
        file.seek(SeekFrom::Start(place))?;
    }
    Ok(())
}

// Reads on in the file of a part; there is nothing to read where it has none. A count and not the part of the space,
// here and below: the clause of a read is about the slice that it is lent.
pub(crate) fn read_on<F: Read>(part: &mut Part<F>, space: &mut [u8]) -> io::Result<usize>
    ensures { IfOk result (λ n. n ≤ length space.new) }
{
    match &mut part.file {
        Some(file) => reads::fill(file, space),
        None => Ok(0),
    }
}

// Loads the start of a part, and answers how many bytes it put there. The only error is that of the file's seek or
// read; after it some of the space may be written, and it is as long as it was.
pub fn load<F: Read + Seek>(part: &mut Part<F>, space: &mut [u8]) -> io::Result<usize>
    ensures within { IfOk result (λ n. n ≤ length space.new) }
    ensures kept { length space.new ≡ length space.old }
{
    at_start(part)?;
    let count = part.length.min(space.len());
    read_on(part, &mut space[..count])
}

// The whole numbers of eight bytes each, as many as there is room for.
pub(crate) fn numbers(stored: &[u8], records: &mut [u64]) {
    for (number, bytes) in records.iter_mut().zip(stored.as_chunks::<8>().0) {
        *number = u64::from_le_bytes(*bytes);
    }
}
