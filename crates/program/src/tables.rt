// A batch over its tables, which are local arrays.
use crate::{Part, Setup, files, print};
use desk::{Tally, begin, offer_all, opening_line};
use engine::{Answer, State};
use std::io;
use std::io::{Read, Seek};
use versions::{Version, empty};

// What a step reads and writes besides the state, and the log, which it only reads.
#[derive(Drop)]
pub(crate) struct Tables<'a> {
    pub(crate) log: &'a [u8],
    pub(crate) records: &'a mut [u64],
    pub(crate) newest: &'a mut [u16],
    pub(crate) versions: &'a mut [Version],
    pub(crate) results: &'a mut [u64],
}

// How many bytes of the steps are read at a time.
const PIECE: usize = 65536;

// Offers the steps, piece by piece; the last piece is a short one, which may be empty. By number: what is cut in pieces
// lies in a file, and is no slice.
fn work<F: Read>(
    mut tally: Tally,
    steps: &mut Part<F>,
    tables: &mut Tables<'_>,
) -> io::Result<Tally> {
    let mut piece = [0; PIECE];
    let length = steps.length;
    for k in 0..=length / PIECE {
        let size = (length - k * PIECE).min(PIECE);
        let got = files::read_on(steps, &mut piece[..size])?;
        tally = offer_all(
            tally,
            &piece,
            got,
            tables.log,
            tables.records,
            tables.newest,
            tables.versions,
            tables.results,
        );
    }
    Ok(tally)
}

// The batch is opened and worked off, and what is after it is printed. "A refused opening prints only "refused" and
// the number."
fn batch<R: Print, F: Read>(
    rt: &R,
    state: State,
    setup: Setup,
    steps: &mut Part<F>,
    tables: &mut Tables<'_>,
) -> io::Result<()> {
    let opened = state.open(tables.log, tables.newest, tables.versions, tables.results);
    if let Answer::Refused(..) = opened.answer {
        return print::print(rt, opening_line(opened));
    }
    let tally = work(begin(opened.state), steps, tables)?;
    print::all(rt, tally, setup, tables)
}

// A store that was made. The newest-version table is as long as the records. Of the log so much is read that one that
// is too long is refused. The three parts stand side by side as in `run`, which is public.
pub(crate) fn run_made<R: Print, F: Read + Seek>(
    rt: &R,
    state: State,
    setup: Setup,
    stored: &mut Part<F>,
    log: &mut Part<F>,
    steps: &mut Part<F>,
) -> io::Result<()> {
    let mut bytes = [0; 8192];
    files::load(stored, &mut bytes)?;
    let count = usize::from(state.records).min(1024);
    let mut records = [0; 1024];
    files::numbers(&bytes, &mut records[..count]);
    let mut entries = [0; 5720];
    let length = files::load(log, &mut entries)?;
    files::at_start(steps)?;
    let mut newest = [terms::NO_SLOT; 1024];
    let mut versions = [empty(); 256];
    let mut results = [0; 256];
    let mut tables = Tables {
        log: &entries[..length],
        records: &mut records[..count],
        newest: &mut newest[..count],
        versions: &mut versions,
        results: &mut results,
    };
    batch(rt, state, setup, steps, &mut tables)
}
