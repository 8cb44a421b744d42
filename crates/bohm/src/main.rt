// Document 01's program: "P and W are 2, first position 1."
#![tactic(auto)]

use program::{Setup, run_files};
use std::io;

fn main(rt: HostRuntime) -> io::Result<()> {
    run_files(&rt, Setup::STANDARD)
}
