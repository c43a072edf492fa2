// The table of arcs by rows. A state is where its arcs begin, so that one is followed by another without the state's number between them.
ghost use Rattle.std.specs.Prelude.{◌≡◌, ◌<◌};
ghost use Rattle.tables.specs.Limits.{most_pool};
ghost use Rattle.following.specs.Rows.{state_at, StateRow, RowOf};

use numbers::number::wide;
use tables::kinds::DiagramState;
use tables::tables::ARCS;

pub fn row_of(s: DiagramState) -> usize
    requires { s.0 < most_pool }
    ensures { RowOf s.0 result }
{
    wide(s.0) * ARCS
}

// The row of the state that an arc leads to, by the arc's entry in the table, which is 1 plus the state: the compiler takes the entry as it was
// read, where `row_of` waits until 1 is taken from it.
pub fn row_after(s: DiagramState) -> usize
    requires { s.0 < most_pool }
    ensures { RowOf s.0 result }
{
    wide(s.0 + 1) * ARCS - ARCS
}

pub fn state_of(row: usize) -> DiagramState
    requires { StateRow row }
    ensures { result.0 ≡ state_at row }
{
    DiagramState((row / ARCS) as u8)
}
