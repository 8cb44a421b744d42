// "Advance, worker w."
ghost use Rattle.std.specs.Prelude.{◌≡◌, ◌*◌, get_or};
ghost use Rattle.engine.specs.Advance.{advance_of, with_filled, with_results};
ghost use Rattle.engine.specs.LawsAdvance.{looked_by, move_at};

use crate::acts::Act;
use crate::moves::{Move, Seen};
use crate::{State, Stepped, Worker, lent, moves, tables};
use counters::decide;
use packed::Transaction;
use terms::Refused;
use versions::{Fill, Version, fill, walk};

// What an advance aims at: the worker, what its transaction means, below which slot it follows a chain, and the
// position that it reads for.
#[derive(Clone, Copy)]
pub struct Aim {
    pub worker: Worker,
    pub meaning: Transaction,
    pub bound: usize,
    pub position: u64,
}

impl Aim {
    // "A read or carry at position t walks from the newest slot back": what a look at a record shows.
    fn looked(self, records: &[u64], newest: &[u16], versions: &[Version], number: usize) -> Seen
        ensures { result ≡ looked_by self records.now newest.now versions.now number }
    {
        let from = tables::newest_of(newest, number);
        let walked = walk(versions, from, self.bound, self.position);
        moves::seen_by(walked, records.get(number).copied().unwrap_or(0))
    }

    // "One of: read the next declared read; with none left, decide; carry the next carried write; fill the next write":
    // what it changes, decided before anything is touched.
    pub(crate) fn moved(
        self,
        records: &[u64],
        newest: &[u16],
        versions: &[Version],
    ) -> Result<Move, Refused>
        ensures { result ≡ move_at self records.now newest.now versions.now }
    {
        let worker = self.worker;
        let meaning = self.meaning;
        match worker.next_act(meaning) {
            Act::Read(k) => {
                let number = in_set(meaning.reads, k);
                moves::reads(worker, k, self.looked(records, newest, versions, number))
            }
            Act::Decide => {
                let decision = decide(meaning, worker.values);
                Ok(moves::decides(worker, meaning.writecount, decision))
            }
            Act::Carry(j) => {
                let number = in_set(meaning.writes, j);
                moves::carries(worker, j, self.looked(records, newest, versions, number))
            }
            Act::Fill(j) => moves::fills(worker, meaning.writecount, j),
        }
    }
}

// Number k of a set of four; past the fourth, 0.
fn in_set(four: [u16; 4], k: u8) -> usize
    ensures { result ≡ get_or four k 0 }
{
    usize::from(four.get(usize::from(k)).copied().unwrap_or(0))
}

// The entry that the advance fills, where it fills one.
pub(crate) fn fill_one(versions: &mut [Version], entry: Option<Fill>)
    ensures { versions.new ≡ with_filled versions.old entry }
{
    if let Some(entry) = entry {
        fill(versions, entry);
    }
}

// "four result numbers at 4i are the values read, then zeros", where the transaction completes. By their numbers: of a
// zip over `iter_mut` a proof does not know afterwards what the table holds.
pub(crate) fn give_results(results: &mut [u64], transaction: u8, four: Option<[u64; 4]>)
    ensures { results.new ≡ with_results results.old (4 * transaction) four }
{
    if let Some(four) = four {
        let at = 4 * usize::from(transaction);
        for (k, number) in four.iter().enumerate() {
            tables::put(results, at + k, *number);
        }
    }
}

impl State {
    // "One of: read the next declared read; with none left, decide; carry the next carried write; fill the next write."
    // The tables are lent one by one, as the promise names them.
    pub fn advance(
        mut self,
        w: usize,
        log: &[u8],
        records: &[u64],
        newest: &[u16],
        versions: &mut [Version],
        results: &mut [u64],
    ) -> Stepped
        ensures { (result
            ≡ (advance_of self w log.now records.now newest.now versions.old
            results.old).stepped)
            × ((versions.new
            ≡ (advance_of self w log.now records.now newest.now versions.old
            results.old).versions)
            × (results.new
            ≡ (advance_of self w log.now records.now newest.now versions.old
            results.old).results)) }
    {
        let numbers = lent::numbers_of(self);
        let answer = lent::advance(
            &mut self.rows,
            &mut self.crew,
            numbers,
            w,
            log,
            records,
            newest,
            versions,
            results,
        );
        Stepped {
            answer,
            state: self,
        }
    }
}
