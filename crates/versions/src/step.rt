// What a step writes into the table: an entry linked in placing, an entry filled in advancing.
ghost use Rattle.std.specs.Prelude.{◌≡◌};
ghost use Rattle.versions.specs.Step.{link_of, fill_of};

use crate::Version;
use crate::entry::{ended, filled, linked};
use crate::plan::{Fill, Link};
use crate::table::{self, entry_at, put_at};

// "begin is its position, end 2^64 − 1, previous is the newest slot, not produced; a preceding entry's end becomes this
// position". A slot past the end of the table changes nothing.
pub fn link(versions: &mut [Version], plan: Link)
    ensures { versions.new ≡ link_of versions.old plan }
{
    if plan.slot < versions.len() {
        if let Some(before) = table::slot(plan.previous) {
            let old = entry_at(versions, before);
            put_at(versions, before, ended(old, plan.position));
        }
        let own = entry_at(versions, plan.slot);
        put_at(
            versions,
            plan.slot,
            linked(own, plan.position, plan.previous),
        );
    }
}

// "Filling stores contents and marks produced." A slot past the end of the table changes nothing.
pub fn fill(versions: &mut [Version], plan: Fill)
    ensures { versions.new ≡ fill_of versions.old plan }
{
    let old = entry_at(versions, plan.slot);
    put_at(versions, plan.slot, filled(old, plan.contents));
}
