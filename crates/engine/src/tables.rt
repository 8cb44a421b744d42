// The lent tables of numbers.
ghost use Rattle.std.specs.Prelude.{◌≡◌};
ghost use Rattle.engine.specs.Tables.{newest_of};

use terms::NO_SLOT;
pub(crate) use versions::put;

// The newest slot of a record; none for a record that the table does not have: 65,535, as the lent table has it, and no
// Option, since an entry's previous slot and the walk take the number so.
pub(crate) fn newest_of(newest: &[u16], r: usize) -> u16
    ensures { result ≡ newest_of newest.now r }
{
    newest.get(r).copied().unwrap_or(NO_SLOT)
}
