// Unpacks every entry of a file and prints the sum of all that the meanings hold, so that nothing of a meaning can be
// left out. bench/unpack counts its instructions beside those of the same work in C.
#![tactic(auto)]

ghost use Rattle.std.specs.Prelude.{◌≤◌, length, IfOk};

use packed::{Action, ActionRow, Transaction, Unpacked};
use std::fs::File;
use std::io;
use std::rt::Files;

// A sum, wrapped at 2^64.
fn sum(a: u64, b: u64) -> u64 {
    a.wrapping_add(b)
}

fn action_tally(row: ActionRow) -> u64 {
    match row.action {
        Action::Nothing => 0,
        Action::Set { r, c }
        | Action::Add { r, c }
        | Action::Take { r, c }
        | Action::Floor { r, c } => sum(u64::from(r), c),
        Action::Copy { r, s } | Action::Move { r, s } => sum(u64::from(r), u64::from(s)),
    }
}

fn set_tally(set: [u16; 4]) -> u64 {
    set.iter()
        .fold(0, |total, &record| sum(total, u64::from(record)))
}

fn tally(t: Transaction) -> u64 {
    let counts = [t.readcount, t.writecount, t.actioncount];
    let counts = counts
        .iter()
        .fold(0, |total, &count| sum(total, u64::from(count)));
    let sets = sum(set_tally(t.reads), set_tally(t.writes));
    t.actions.iter().fold(sum(counts, sets), |total, &row| {
        sum(total, action_tally(row))
    })
}

// What one entry adds: all that it holds, or 1 where it is refused.
fn weight(unpacked: Unpacked) -> u64 {
    match unpacked.verdict {
        Ok(()) => tally(unpacked.meaning),
        Err(_) => 1,
    }
}

// The bytes after the last whole entry are left out.
fn total(bytes: &[u8]) -> u64 {
    bytes.chunks_exact(88).fold(0, |total, entry| {
        sum(total, weight(packed::unpack(entry, 1024)))
    })
}

// Reads as much of the file as there is room for; a missing one counts as empty. A count and not the part of the space:
// the clause of a read is about the slice that it is lent.
fn load(rt: &impl Files, space: &mut [u8]) -> io::Result<usize>
    ensures { IfOk result (λ n. n ≤ length space.new) }
{
    match File::open(rt, "entries.bin") {
        Ok(mut file) => reads::fill(&mut file, space),
        Err(_) => Ok(0),
    }
}

fn main(rt: HostRuntime) -> io::Result<()> {
    let mut space = [0u8; 65536];
    let got = load(&rt, &mut space)?;
    let total = total(&space[..got]);
    println!(rt; "{total}")
}
