// Field 5: the root of each control state.
ghost use Rattle.std.specs.Prelude.{◌≡◌, ◌≤◌, replicate};
ghost use Rattle.numbers.specs.Said.{said_with};
ghost use Rattle.tables.specs.Limits.{most_controls};
ghost use Rattle.reading_file.specs.Map.{read_roots, read_map};

use numbers::reader::Reader;
use numbers::refusal::Refusal;
use tables::tables::{MOST_CONTROLS, Map};

fn read_roots(
    r: &mut Reader<'_>,
    n: u8,
    count: usize,
    roots: &mut [u8; MOST_CONTROLS],
) -> Result<(), Refusal>
    requires { count ≤ most_controls }
    ensures read { said_with (λ _. roots.new) result r.new.place ≡ read_roots r.old.bytes.now r.old.place n count 0 roots.old }
    ensures bytes { r.new.bytes ≡ r.old.bytes }
{
    for i in 0..count {
        roots[i] = r.within(0, n)?;
    }
    Ok(())
}

#[tactic(auto, using(numbers::specs::Laws::Parts::handed_on_with), unfolding(crate::specs::Map::read_map))]
pub(crate) fn read_map(
    r: &mut Reader<'_>,
    product: usize,
    n: u8,
    map: &mut Map,
) -> Result<(), Refusal>
    requires { product ≤ most_controls }
    ensures read { said_with (λ _. map.new) result r.new.place ≡ read_map r.old.bytes.now r.old.place product n }
    ensures bytes { r.new.bytes ≡ r.old.bytes }
{
    map.roots = [0u8; MOST_CONTROLS];
    read_roots(r, n, product, &mut map.roots)
}
