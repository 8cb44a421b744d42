// Runs the stored cases of the engine's calls and prints the answer, the state and the tables after each. The reference
// makes what it has to print; reference/README.md says the form of both.
#![tactic(auto)]

ghost use Rattle.std.specs.Prelude.{◌≤◌};

mod calls;
mod entries;
mod listed;
mod numbers;
mod print;
mod state;
mod tables;

use calls::Call;
use case_files::Cases;
use engine::State;
use listed::List;
use std::io;
use std::io::Read;
use tables::{LONGEST, Tables};

// The call over a version table of so many entries, none where it is lent none. The table is a local of this function,
// so that a case fills no longer one than it needs; the bound is on the local's bytes.
fn run<const N: usize>(
    rt: &impl Print,
    call: Call,
    state: State,
    tables: &mut Tables<'_>,
    list: &List,
) -> io::Result<()>
    requires { N ≤ 70000 }
{
    let mut versions = [versions::empty(); N];
    list.load(&mut versions);
    // Lent on one by one: the borrow checker does not cover tables that are moved here.
    let mut tables = Tables {
        newest: &mut *tables.newest,
        versions: &mut versions,
        records: &mut *tables.records,
        results: &mut *tables.results,
        log: tables.log,
    };
    let stepped = call.step(state, &mut tables);
    print::after(rt, call, stepped, &tables, list)
}

// What follows the call in the file, and the call's six lines.
fn case(rt: &impl Print, file: &mut impl Read, call: Call) -> io::Result<()> {
    // Ahead of all that may fail: behind a read the compiler fills each a second time, with zeros, at the start.
    let mut newest = [terms::NO_SLOT; LONGEST];
    let mut records = [0; LONGEST];
    let mut results = [0; LONGEST];
    let mut log = [0; 8192];
    let state = state::next(file)?;
    let newest = tables::next(file, &mut newest)?;
    let list = List::next(file)?;
    let mut tables = Tables {
        newest,
        versions: &mut [],
        records: tables::next(file, &mut records)?,
        results: tables::next(file, &mut results)?,
        log: tables::log(file, &mut log)?,
    };
    match list.length {
        _ if !call.is_lent_versions() => run::<0>(rt, call, state, &mut tables, &list),
        256 => run::<256>(rt, call, state, &mut tables, &list),
        _ => run::<LONGEST>(rt, call, state, &mut tables, &list),
    }
}

// The cases of the engine's calls.
struct EngineCases;

impl Cases for EngineCases {
    fn run_next(rt: &impl Print, file: &mut impl Read) -> io::Result<Option<()>> {
        let Some(call) = Call::next(file)? else {
            return Ok(None);
        };
        case(rt, file, call)?;
        Ok(Some(()))
    }
}

// The cases are named by their type, and no closure: `Cases` says why.
fn main(rt: HostRuntime) -> io::Result<()> {
    case_files::run_all::<EngineCases, _>(&rt)
}
