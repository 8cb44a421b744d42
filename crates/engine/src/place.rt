// "Place, partition p."
ghost use Rattle.std.specs.Prelude.{◌≡◌, ◌≤◌, ◌<◌, None, get_or};
ghost use Rattle.engine.specs.Counting.{some_below};
ghost use Rattle.engine.specs.Place.{not_below, place_write, place_of};
ghost use Rattle.engine.specs.LawsPlace.{written_at, writes_of, meets_at, both, writes_below};

use crate::{State, Stepped, lent, tables};
use packed::Transaction;
use std::array;
use versions::{Link, Version, link};

// What an accepted place step comes to: the transaction with its position, the records of its writes that lie in the
// partition, and how many transactions the partition has placed then.
#[derive(Clone, Copy)]
pub struct Placing {
    pub transaction: u8,
    pub position: u64,
    pub writes: [Option<u16>; 4],
    pub count: u8,
}

// The record of write j, where it is declared and "Record r belongs to partition r mod P" says the partition. With
// `checked_rem` a P of 0 would have no partition, where the definition's r mod 0 is r: so P is asked to be above 0.
fn written_at(partitions: u8, p: usize, meaning: &Transaction, j: usize) -> Option<u16>
    requires { (1 ≤ partitions) × (j < 4) }
    ensures { result ≡ written_at partitions p meaning.now j }
{
    let number = meaning.writes[j];
    let here = (j < usize::from(meaning.writecount))
        & (usize::from(number) % usize::from(partitions) == p);
    here.then_some(number)
}

// The records of the four writes, where they lie in the partition.
pub(crate) fn writes_of(partitions: u8, p: usize, meaning: &Transaction) -> [Option<u16>; 4]
    requires { 1 ≤ partitions }
    ensures { result ≡ writes_of partitions p meaning.now }
{
    array::from_fn(|j| written_at(partitions, p, meaning, j))
}

// "a slot met in placing is not below its own"; 65,535 stands for none in the lent table
fn is_not_below(slot: u16, own: usize) -> bool
    ensures { result ≡ not_below slot own }
{
    !terms::is_no_slot(slot) & (own <= usize::from(slot))
}

// Write j lies in the partition, and the slot that it meets is not below its own.
fn meets_wrong(transaction: u8, write: Option<u16>, j: usize, newest: &[u16]) -> bool
    requires { j < 4 }
    ensures { result ≡ meets_at transaction write j newest.now }
{
    write.is_some_and(|number| {
        let slot = tables::newest_of(newest, usize::from(number));
        is_not_below(slot, 4 * usize::from(transaction) + j)
    })
}

// Some write meets a wrong slot.
pub(crate) fn some_meets_wrong(transaction: u8, writes: &[Option<u16>; 4], newest: &[u16]) -> bool
    ensures { result ≡ some_below 4 (λ j. meets_at transaction (get_or writes.now j None) j newest.now) }
{
    writes
        .iter()
        .enumerate()
        .any(|(j, &write)| meets_wrong(transaction, write, j, newest))
}

// "begin is its position, end 2^64 − 1, previous is the newest slot, not produced; a preceding entry's end becomes this
// position; the new slot becomes newest".
fn place_write(newest: &mut [u16], versions: &mut [Version], position: u64, slot: u16, number: u16)
    ensures { both newest.new versions.new ≡ place_write position slot number (both newest.old versions.old) }
{
    let previous = tables::newest_of(newest, usize::from(number));
    link(
        versions,
        Link {
            slot: usize::from(slot),
            position,
            previous,
        },
    );
    tables::put(newest, usize::from(number), slot);
}

// "For each write in that partition, ascending".
pub(crate) fn place_writes(newest: &mut [u16], versions: &mut [Version], plan: Placing)
    ensures { both newest.new versions.new ≡ writes_below 4 plan (both newest.old versions.old) }
{
    for (j, write) in plan.writes.iter().enumerate() {
        if let Some(number) = *write {
            let slot = 4 * u16::from(plan.transaction) + j as u16;
            place_write(newest, versions, plan.position, slot, number);
        }
    }
}

impl State {
    // "For each write in that partition, ascending".
    pub fn place(
        self,
        p: usize,
        log: &[u8],
        newest: &mut [u16],
        versions: &mut [Version],
    ) -> Stepped
        ensures { (result ≡ (place_of self p log.now newest.old versions.old).stepped)
            × ((newest.new
            ≡ (place_of self p log.now newest.old versions.old).plans.newest)
            × (versions.new
            ≡ (place_of self p log.now newest.old versions.old).plans.versions)) }
    {
        let numbers = lent::numbers_of(self);
        let counted = lent::place(&self.rows, &self.crew, numbers, p, log, newest, versions);
        counted.joined(self.rows, self.crew)
    }
}
