// Fields 5 and 6, the sets: the root of each control state, and the bad entries.
ghost use Rattle.std.specs.Prelude.{◌≡◌, ◌≤◌};
ghost use Rattle.numbers.specs.Said.{said_with};
ghost use Rattle.tables.specs.Limits.{most_controls};
ghost use Rattle.reading_file.specs.Sets.{read_sets};

use crate::bad::read_bad;
use crate::map::read_map;
use numbers::reader::Reader;
use numbers::refusal::Refusal;
use tables::tables::SetTables;

#[tactic(auto, using(numbers::specs::Laws::Parts::handed_on_with), unfolding(crate::specs::Sets::read_sets))]
pub fn read_sets(
    r: &mut Reader<'_>,
    product: usize,
    n: u8,
    sets: &mut SetTables,
) -> Result<(), Refusal>
    requires { product ≤ most_controls }
    ensures read { said_with (λ _. sets.new) result r.new.place ≡ read_sets r.old.bytes.now r.old.place product n }
    ensures bytes { r.new.bytes ≡ r.old.bytes }
{
    read_map(r, product, n, &mut sets.map)?;
    read_bad(r, product, n, &mut sets.bad)?;
    Ok(())
}
