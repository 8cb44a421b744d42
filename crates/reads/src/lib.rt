// Reading a run of bytes from a file that may end before it does.
#![tactic(auto)]

ghost use Rattle.std.specs.Prelude.{◌≡◌, ◌≤◌, length, IfOk};

use std::io;
use std::io::{ErrorKind, Read};

// Reads until the space is full or the input ends, and answers how many bytes it put at the space's start. The only
// error is the input's own; after it some of the space may be written, and the input has been read to where it failed.
// A count and not the part of the space: callers go on with the whole space, or with what was in it before.
pub fn fill<F: Read>(input: &mut F, space: &mut [u8]) -> io::Result<usize>
    ensures within { IfOk result (λ n. n ≤ length space.new) }
    ensures kept { length space.new ≡ length space.old }
{
    let mut done = 0;
    // A read that is interrupted is asked again, and a loop has to end.
    for _ in 0..u64::MAX {
        if done >= space.len() {
            break;
        }
        match input.read(&mut space[done..]) {
            Ok(0) => break,
            Ok(n) => done += n,
            Err(e) if e.kind() == ErrorKind::Interrupted => {}
            Err(e) => return Err(e),
        }
    }
    Ok(done)
}
