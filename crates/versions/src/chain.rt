// The walk back along a chain of versions.
ghost use Rattle.std.specs.Prelude.{◌≡◌};
ghost use Rattle.versions.specs.Chain.{walk_of};

use crate::Version;

// What a walk comes to: the stored record, "past the last one"; a version; or a slot that no proper chain has. These
// are three answers side by side, and so neither an Option nor a Result.
#[derive(Clone, Copy, Debug, PartialEq, Eq)]
pub enum Walked {
    Stored,
    Found(Version),
    Broken,
}

// "walks from the newest slot back to the first version with begin < t; past the last one lies the stored record". The
// newest slot must be below the bound, 4n, and lie in the table; a previous slot must be below the one it stands in.
pub fn walk(versions: &[Version], from: u16, bound: usize, at: u64) -> Walked
    ensures { result ≡ walk_of versions.now from bound at }
{
    let mut limit = bound.min(versions.len());
    let mut number = from;
    // As an Option, of `table::slot`, the number costs three instructions more for each version.
    while !terms::is_no_slot(number) {
        let slot = number as usize;
        if limit <= slot {
            return Walked::Broken;
        }
        let version = versions[slot];
        if version.begin < at {
            return Walked::Found(version);
        }
        limit = slot;
        number = version.previous;
    }
    Walked::Stored
}
