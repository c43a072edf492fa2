// A walk over the tables that it reads.
ghost use Rattle.std.specs.Prelude.{◌≡◌, length};
ghost use Rattle.tables.specs.Limits.{most_pool};
ghost use Rattle.checking_pairs.specs.Over.{Lent};

use crate::pairs::Walk;

// What the walk's step reads: no final states.
#[derive(Clone, Copy)]
pub struct StepOver<'a> {
    pub walk: Walk,
    pub arcs: &'a [u8],
    pub rows: &'a [u8],
    ghost lent: { Lent arcs.now rows.now walk },
}

// The tables are lent, so that a walk copies none.
#[derive(Clone, Copy)]
pub struct WalkOver<'a> {
    pub walk: Walk,
    pub arcs: &'a [u8],
    pub finals: &'a [u8],
    pub rows: &'a [u8],
    ghost lent: { Lent arcs.now rows.now walk },
    ghost finals_long: { length finals.now ≡ most_pool },
}
