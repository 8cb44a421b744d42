// What the program prints.
use crate::Setup;
use crate::tables::Tables;
use desk::{Line, Tally, counts_of, not_sealed_line, record_at, transaction_at};
use std::io;

pub(crate) fn print(rt: &impl Print, line: Line) -> io::Result<()> {
    if let Some(text) = line.bytes.get(..line.length) {
        rt.write_all(text)?;
    }
    Ok(())
}

// By index, here and for the records: `desk` is lent a table and makes the line of the place in it that it is given.
fn transactions(rt: &impl Print, tally: Tally, log: &[u8], results: &[u64]) -> io::Result<()> {
    for index in 0..log.len() / 88 {
        print(rt, transaction_at(tally, log, results, index))?;
    }
    Ok(())
}

fn records(rt: &impl Print, stored: &[u64]) -> io::Result<()> {
    for number in 0..stored.len() {
        print(rt, record_at(stored, number))?;
    }
    Ok(())
}

// "With no seal accepted, "not sealed" stands in place of the tx and rec lines."
fn batch(rt: &impl Print, tally: Tally, tables: &Tables<'_>) -> io::Result<()> {
    if !tally.sealed {
        return print(rt, not_sealed_line());
    }
    transactions(rt, tally, tables.log, tables.results)?;
    records(rt, tables.records)
}

pub(crate) fn all(
    rt: &impl Print,
    tally: Tally,
    setup: Setup,
    tables: &Tables<'_>,
) -> io::Result<()> {
    if !setup.quiet {
        batch(rt, tally, tables)?;
    }
    print(rt, counts_of(tally))
}
