// The layout of a case in the file: see reference/README.md.
ghost use Rattle.std.specs.Prelude.{◌+◌, ◌≤◌};

use std::array;

// What is asked of the bytes that a case lends; a number that is neither 1 nor 2 asks for an entry.
#[derive(Clone, Copy)]
pub enum Asked {
    Unpack,
    Pack,
    Entry,
}

impl From<u8> for Asked {
    fn from(what: u8) -> Asked {
        match what {
            1 => Asked::Unpack,
            2 => Asked::Pack,
            _ => Asked::Entry,
        }
    }
}

// The head of a case: what is asked (1 unpack, 2 pack, 3 an entry of a log), N, the index, the length of what is lent:
// of bytes that follow in the file, so that no slice can stand for it.
#[derive(Clone, Copy)]
pub struct Head {
    pub asked: Asked,
    pub n: usize,
    pub index: usize,
    pub length: u16,
}

// The 64-bit number from `at` on. It stands in `packed` and `case_files` too, for other lengths: it asks that the bytes
// are there, and no public function asks anything.
fn long_at(head: &[u8; 19], at: usize) -> u64
    requires { at + 8 ≤ 19 }
{
    little::long(array::from_fn(|k| head[at + k]))
}

impl From<[u8; 19]> for Head {
    fn from(head: [u8; 19]) -> Head {
        Head {
            asked: Asked::from(head[0]),
            n: long_at(&head, 1) as usize,
            index: long_at(&head, 9) as usize,
            length: little::word([head[17], head[18]]),
        }
    }
}
