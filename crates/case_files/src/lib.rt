// What the programs that run stored cases share: a meaning as it stands in a case file (reference/README.md), and the
// parts of a line.
#![tactic(auto)]

ghost use Rattle.std.specs.Prelude.{◌≡◌, ◌+◌, ◌≤◌};
ghost use Rattle.packed.specs.Fields.{word_at, long_at, set_at};
ghost use Rattle.case_files.specs.Meaning.{row_in, meaning_in};

use packed::{Action, ActionRow, Fields, Transaction};
use std::fs::File;
use std::io::Read;
use std::rt::Files;
use std::{array, io};

// A file holds at most this many cases. With no bound nothing would show that the loop over them ends.
const MOST: usize = 1000000;

// What a program makes of the cases of its file. A trait: a function that is lent a closure would have to ask that it
// may be called, and no public function asks anything.
pub trait Cases {
    // Runs the next case; None where the file has no whole one.
    fn run_next(rt: &impl Print, file: &mut impl Read) -> io::Result<Option<()>>;
}

// Runs every case of the program's file; a missing file has none.
pub fn run_all<C: Cases, R: Files + Print>(rt: &R) -> io::Result<()> {
    let Ok(mut file) = File::open(rt, "cases.bin") else {
        return Ok(());
    };
    for _ in 0..MOST {
        if C::run_next(rt, &mut file)?.is_none() {
            break;
        }
    }
    Ok(())
}

// The 16-bit number from `at` on. This and the two below stand in `packed` too, for another length: they ask that the
// bytes are there, and no public function asks anything.
fn word_at(b: &[u8; 71], at: usize) -> u16
    requires { at + 2 ≤ 71 }
    ensures { result ≡ word_at b.now at }
{
    little::word([b[at], b[at + 1]])
}

// The 64-bit number from `at` on.
fn long_at(b: &[u8; 71], at: usize) -> u64
    requires { at + 8 ≤ 71 }
    ensures { result ≡ long_at b.now at }
{
    little::long(array::from_fn(|k| b[at + k]))
}

// The action in the 13 bytes from `at` on.
fn row_in(b: &[u8; 71], at: usize) -> ActionRow
    requires { at + 13 ≤ 71 }
    ensures { result ≡ row_in b.now at }
{
    let r = word_at(b, at + 1);
    let s = word_at(b, at + 3);
    let c = long_at(b, at + 5);
    let fields = Fields {
        kind: b[at],
        r,
        s,
        c,
    };
    ActionRow {
        action: Action::from(fields),
    }
}

// The four record numbers from `at` on.
fn set_in(b: &[u8; 71], at: usize) -> [u16; 4]
    requires { at + 8 ≤ 71 }
    ensures { result ≡ set_at b.now at }
{
    array::from_fn(|k| word_at(b, at + 2 * k))
}

// The meaning in 71 bytes.
pub fn meaning(b: [u8; 71]) -> Transaction
    ensures { result ≡ meaning_in b }
{
    let reads = set_in(&b, 3);
    let writes = set_in(&b, 11);
    // One by one: with `array::from_fn` over the four the search finds no proof.
    let actions = [
        row_in(&b, 19),
        row_in(&b, 32),
        row_in(&b, 45),
        row_in(&b, 58),
    ];
    Transaction {
        readcount: b[0],
        writecount: b[1],
        actioncount: b[2],
        reads,
        writes,
        actions,
    }
}

// The only error is that of the write, here and for a number.
pub fn print_text(rt: &impl Print, bytes: &[u8]) -> io::Result<()> {
    rt.write_all(bytes)
}

// A space and a number.
pub fn print_number(rt: &impl Print, value: u64) -> io::Result<()> {
    print!(rt; " {value}")
}
