// Field 6: the bad entries.
ghost use Rattle.std.specs.Prelude.{◌≡◌, ◌≤◌, ◌*◌, replicate};
ghost use Rattle.numbers.specs.Said.{said_with};
ghost use Rattle.tables.specs.Limits.{most_controls, most_bad};
ghost use Rattle.reading_file.specs.Bad.{read_entries, read_bad};

use numbers::reader::Reader;
use numbers::refusal::Refusal;
use tables::tables::{BadList, ENTRIES, ENTRY, MOST_BAD};

fn read_entries(
    r: &mut Reader<'_>,
    product: usize,
    n: u8,
    count: usize,
    rows: &mut [u8; ENTRIES],
) -> Result<(), Refusal>
    requires product_le_most_controls { product ≤ most_controls }
    requires count_le_most_bad { count ≤ most_bad }
    ensures read { said_with (λ _. rows.new) result r.new.place ≡ read_entries r.old.bytes.now r.old.place product n count 0 rows.old }
    ensures bytes { r.new.bytes ≡ r.old.bytes }
{
    for b in 0..count {
        let (control, root) = r.two(product, usize::from(n))?;
        rows[b * ENTRY] = control;
        rows[b * ENTRY + 1] = root;
    }
    Ok(())
}

#[tactic(auto, using(numbers::specs::Laws::Parts::handed_on, numbers::specs::Laws::Parts::handed_on_with), unfolding(crate::specs::Bad::read_bad))]
pub(crate) fn read_bad(
    r: &mut Reader<'_>,
    product: usize,
    n: u8,
    bad: &mut BadList,
) -> Result<(), Refusal>
    requires { product ≤ most_controls }
    ensures read { said_with (λ _. bad.new) result r.new.place ≡ read_bad r.old.bytes.now r.old.place product n }
    ensures bytes { r.new.bytes ≡ r.old.bytes }
{
    bad.rows = [0u8; ENTRIES];
    let count = r.within(0, MOST_BAD)?;
    bad.count = count;
    read_entries(r, product, n, usize::from(count), &mut bad.rows)
}
