// A part of a word, followed from where the parts before it led.
ghost use Rattle.std.specs.Prelude.{◌≤◌};
ghost use Rattle.theory_model.specs.Model.{Between};
ghost use Rattle.tables.specs.Limits.{most_messages, most_pool};
ghost use Rattle.tables.specs.Lookup.{ArcsSmall};
ghost use Rattle.following.specs.Standing.{standing, RingAt};
ghost use Rattle.following.specs.Part.{Goes};

use crate::messages::{Lost, Ring, follow};
use crate::rows::{row_of, state_of};
use tables::kinds::Reached;

// Where a part leads, and how many of its messages are followed. No `Result`: where a part leads nowhere the next follows none, so that the numbers of
// all parts are added as they are, and no part ends the others.
#[derive(Clone, Copy, Debug, PartialEq, Eq)]
pub struct Extent {
    pub to: Reached,
    pub far: usize,
}

// From nowhere none is followed.
pub(crate) fn follow_part<const SIZE: usize>(
    arcs: &[u8],
    from: Reached,
    ring: Ring<'_, SIZE>,
) -> Extent
    requires arcs_small { ArcsSmall arcs.now }
    requires from_le_most_pool { from.0 ≤ most_pool }
    requires ring_at { RingAt ring.table.now ring.base SIZE ring.head }
    requires between { Between 0 most_messages (standing SIZE ring.table.now ring.base ring.head ring.count) }
    ensures { Goes arcs.now from.0 (standing SIZE ring.entry.table.now ring.entry.base ring.entry.head ring.entry.count) result.to.0 result.far }
{
    if from.is_nowhere() {
        return Extent { to: from, far: 0 };
    }
    match follow(arcs, row_of(from.state()), ring) {
        Ok(last) => Extent {
            to: Reached::at(state_of(last)),
            far: ring.count,
        },
        Err(Lost(n)) => Extent {
            to: Reached::nowhere(),
            far: n,
        },
    }
}
