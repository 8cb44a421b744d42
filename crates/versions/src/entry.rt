// One entry of the version table, by value.
ghost use Rattle.std.specs.Prelude.{◌≡◌};
ghost use Rattle.versions.specs.Entry.{empty_entry, linked_of, ended_of, filled_of};

use crate::Version;

// "empty entries (begin, end and contents 0, previous 65,535, not produced)"
pub fn empty() -> Version
    ensures { result ≡ empty_entry }
{
    Version {
        begin: 0,
        end: 0,
        previous: terms::NO_SLOT,
        contents: 0,
        produced: false,
    }
}

// "begin is its position, end 2^64 − 1, previous is the newest slot, not produced": the contents are as they were.
pub fn linked(old: Version, position: u64, previous: u16) -> Version
    ensures { result ≡ linked_of old position previous }
{
    Version {
        begin: position,
        end: terms::NO_END,
        previous,
        produced: false,
        ..old
    }
}

// "a preceding entry's end becomes this position"
pub fn ended(old: Version, position: u64) -> Version
    ensures { result ≡ ended_of old position }
{
    Version {
        end: position,
        ..old
    }
}

// "Filling stores contents and marks produced."
pub fn filled(old: Version, contents: u64) -> Version
    ensures { result ≡ filled_of old contents }
{
    Version {
        contents,
        produced: true,
        ..old
    }
}
