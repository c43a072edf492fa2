// A byte as a wider number, and the entries of tables.
ghost use Rattle.std.specs.Prelude.{◌≡◌, get_or};
ghost use Rattle.numbers.specs.Said.{Widened};

// Beside `usize::from` it promises that the number is below 256, which proofs of callers cite.
pub fn wide(x: u8) -> usize
    ensures { Widened x result }
{
    x as usize
}

// The entry of a table, 0 past its end.
pub fn entry(table: &[u8], i: usize) -> u8
    ensures { result ≡ get_or table.now i 0 }
{
    table.get(i).copied().unwrap_or(0)
}
