// State and tables after a call, as lines.
use crate::calls::Call;
use crate::entries::Entry;
use crate::listed::List;
use crate::tables::Tables;
use engine::{Answer, State, Stepped};
use std::io;

pub(crate) fn numbers(rt: &impl Print, numbers: &[u64]) -> io::Result<()> {
    for number in numbers {
        print!(rt; " {number}")?;
    }
    Ok(())
}

fn answer(rt: &impl Print, answer: Answer) -> io::Result<()> {
    match answer {
        Answer::Accepted => println!(rt; "accepted"),
        Answer::Waits(position) => println!(rt; "waits {}", position.0),
        Answer::Refused(refusal, place) => println!(rt;
            "refused {} at {}",
            refusal.number(),
            place.transaction
        ),
    }
}

// The entries that a file does not leave out, each after its index.
fn entries<T: Entry>(rt: &impl Print, table: &[T]) -> io::Result<()> {
    for (index, entry) in table.iter().enumerate() {
        entry.print(rt, index)?;
    }
    Ok(())
}

// "The state has its end marks 64 and 8; the tables are without their 2^64 − 1."
fn state(rt: &impl Print, state: State) -> io::Result<()> {
    let counts = [
        u64::from(state.records),
        u64::from(state.partitions),
        u64::from(state.workers),
        state.next.0,
        u64::from(state.size),
        state.batch.0,
    ];
    print!(rt; "state")?;
    numbers(rt, &counts)?;
    numbers(rt, &state.placed.map(u64::from))?;
    entries(rt, &state.rows)?;
    print!(rt; " 64")?;
    entries(rt, &state.crew)?;
    println!(rt; " 8")
}

fn table<T: Entry>(rt: &impl Print, name: &str, table: &[T]) -> io::Result<()> {
    print!(rt; "{name} {}", table.len())?;
    entries(rt, table)?;
    println!(rt)
}

// The six lines of a case.
pub(crate) fn after(
    rt: &impl Print,
    call: Call,
    stepped: Stepped,
    tables: &Tables<'_>,
    list: &List,
) -> io::Result<()> {
    answer(rt, stepped.answer)?;
    state(rt, stepped.state)?;
    table(rt, "newest", tables.newest)?;
    if call.is_lent_versions() {
        table(rt, "versions", tables.versions)?;
    } else {
        list.print(rt)?;
    }
    table(rt, "records", tables.records)?;
    table(rt, "results", tables.results)
}
