// Where messages lead that stand one after the other in a ring of bytes: those that wait in a queue, and those of a word in the table of
// transitions, whose bytes are a ring that is not gone round. None is copied: each is read when its turn comes.
ghost use Rattle.std.specs.Prelude.{◌≤◌};
ghost use Rattle.theory_model.specs.Model.{Between};
ghost use Rattle.tables.specs.Limits.{most_messages, most_pool};
ghost use Rattle.tables.specs.Lookup.{ArcsSmall};
ghost use Rattle.following.specs.Follow.{FollowsTo};
ghost use Rattle.following.specs.Rows.{StateRow, RowFollows};
ghost use Rattle.following.specs.Standing.{standing, word_over, RingAt, WordWithin};

use crate::rows::{row_after, row_of, state_of};
use tables::kinds::{Message, Reached};
use tables::lookup::arc_from;
use tables::tables::MOST_WORD;

// The messages of a word lie in so many bytes of their table.
pub const WORD_ROOM: usize = MOST_WORD as usize;

// So many messages one after the other, read where they stand: in a ring of SIZE bytes of the table, from base on, the first at place head.
#[derive(Clone, Copy, Debug, PartialEq, Eq)]
pub struct Ring<'a, const SIZE: usize> {
    pub table: &'a [u8],
    pub base: usize,
    pub head: usize,
    pub count: usize,
}

// So many messages lead somewhere, and the next has nowhere to go.
#[derive(Clone, Copy, Debug, PartialEq, Eq)]
pub struct Lost(pub usize);

// The row of the state that the messages of a ring lead to. The first that has nowhere to go ends it. SIZE is a power of two wherever it is called, so
// that no division is left of it.
pub fn follow<const SIZE: usize>(
    arcs: &[u8],
    from: usize,
    ring: Ring<'_, SIZE>,
) -> Result<usize, Lost>
    requires arcs_small { ArcsSmall arcs.now }
    requires state_row { StateRow from }
    requires ring_at { RingAt ring.table.now ring.base SIZE ring.head }
    requires between { Between 0 most_messages (standing SIZE ring.table.now ring.base ring.head ring.count) }
    ensures { RowFollows arcs.now from (standing SIZE ring.entry.table.now ring.entry.base ring.entry.head ring.entry.count) result }
{
    let mut row = from;
    let mut place = ring.head;
    for i in 0..ring.count {
        let Some(next) = arc_from(arcs, row, Message(ring.table[ring.base + place])) else {
            return Err(Lost(i));
        };
        row = row_after(next);
        place = (place + 1) % SIZE;
    }
    Ok(row)
}

// Where so many messages of the word at this entry of the table lead. From nowhere there is nowhere to go.
pub fn follow_word(arcs: &[u8], from: Reached, table: &[u8], at: usize, n: usize) -> Reached
    requires arcs_small { ArcsSmall arcs.now }
    requires from_le_most_pool { from.0 ≤ most_pool }
    requires word_within { WordWithin table.now at n }
    ensures { FollowsTo arcs.now from.0 (word_over table.now at n) result.0 }
{
    if from.is_nowhere() {
        return from;
    }
    let word = Ring::<WORD_ROOM> {
        table,
        base: at,
        head: 0,
        count: n,
    };
    match follow(arcs, row_of(from.state()), word) {
        Ok(last) => Reached::at(state_of(last)),
        Err(_) => Reached::nowhere(),
    }
}
