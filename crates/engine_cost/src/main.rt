// Works off a batch as document 01's program does, for any P and W. bench/engine counts its instructions beside those
// of the same program in C, bench/engine/run.c. setup.bin holds P and W, 2 and 2 without it; a third byte that is not 0
// leaves out all lines but the counts, so that a seal can be measured without the lines that it makes.
#![tactic(auto)]

use program::{Setup, close, load, run_files, whole};
use std::io;
use std::rt::Files;

fn setup(rt: &impl Files) -> io::Result<Setup> {
    let mut file = whole(rt, b"setup.bin");
    let mut bytes = [0; 3];
    let got = load(&mut file, &mut bytes)?;
    close(file);
    if got < 2 {
        return Ok(Setup::STANDARD);
    }
    let [partitions, workers, quiet] = bytes;
    Ok(Setup {
        partitions: usize::from(partitions),
        workers: usize::from(workers),
        quiet: quiet != 0,
    })
}

fn main(rt: HostRuntime) -> io::Result<()> {
    run_files(&rt, setup(&rt)?)
}
