// Are two tables the same, entry by entry?
ghost use Rattle.std.specs.Prelude.{◌≡◌};
ghost use Rattle.tables.specs.View.{viewed};
ghost use Rattle.comparison.specs.Same.{same_tables};

use tables::view::TablesView;

// The library compares slices of bytes in groups, so that the large tables are gone through many entries at a time.
pub fn same_tables(t: &TablesView<'_>, u: &TablesView<'_>) -> bool
    ensures { result ≡ same_tables (viewed t.now) (viewed u.now) }
{
    t == u
}
