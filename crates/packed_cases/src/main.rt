// Runs the stored cases of packed transactions and prints each answer on a line. The reference makes what it has to
// print.
#![tactic(auto)]

mod cases;
mod print;

use case_files::Cases;
use cases::{Asked, Head};
use std::io;
use std::io::Read;

// What a 16-bit length can lend.
const ROOM: usize = 65536;

// Fills the space from the file; nothing where the file ends before it is full.
fn filled(file: &mut impl Read, space: &mut [u8]) -> io::Result<Option<()>> {
    let got = reads::fill(file, space)?;
    Ok((got == space.len()).then_some(()))
}

// A case that packs: a meaning follows its head, and it lends a buffer.
fn pack_case(
    rt: &impl Print,
    file: &mut impl Read,
    buffer: &mut [u8],
    head: Head,
) -> io::Result<Option<()>> {
    let mut bytes = [0u8; 71];
    if filled(file, &mut bytes)?.is_none() {
        return Ok(None);
    }
    print!(rt; "pack ")?;
    print::verdict(rt, packed::pack(case_files::meaning(bytes), head.n, buffer))?;
    print!(rt; " ")?;
    print::hex(rt, buffer)?;
    println!(rt)?;
    Ok(Some(()))
}

// A case that unpacks: the bytes that it lends follow its head.
fn unpack_case(
    rt: &impl Print,
    file: &mut impl Read,
    lent: &mut [u8],
    head: Head,
) -> io::Result<Option<()>> {
    if filled(file, lent)?.is_none() {
        return Ok(None);
    }
    print!(rt; "unpack ")?;
    print::unpacked(rt, packed::unpack(lent, head.n))?;
    Ok(Some(()))
}

// A case of an entry: the log that it lends follows its head.
fn entry_case(
    rt: &impl Print,
    file: &mut impl Read,
    lent: &mut [u8],
    head: Head,
) -> io::Result<Option<()>> {
    if filled(file, lent)?.is_none() {
        return Ok(None);
    }
    print!(rt; "entry ")?;
    print::unpacked(rt, packed::unpack_at(lent, head.index, head.n))?;
    Ok(Some(()))
}

// The cases of packed transactions.
struct Transactions;

impl Cases for Transactions {
    fn run_next(rt: &impl Print, file: &mut impl Read) -> io::Result<Option<()>> {
        let mut bytes = [0u8; 19];
        if filled(file, &mut bytes)?.is_none() {
            return Ok(None);
        }
        let head = Head::from(bytes);
        // a byte that shows what was not written
        let mut space = [170; ROOM];
        let lent = &mut space[..usize::from(head.length)];
        match head.asked {
            Asked::Unpack => unpack_case(rt, file, lent, head),
            Asked::Pack => pack_case(rt, file, lent, head),
            Asked::Entry => entry_case(rt, file, lent, head),
        }
    }
}

// The cases are named by their type, and no closure: `Cases` says why.
fn main(rt: HostRuntime) -> io::Result<()> {
    case_files::run_all::<Transactions, _>(&rt)
}
