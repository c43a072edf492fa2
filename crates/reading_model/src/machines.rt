// Field 1: the machines.
ghost use Rattle.std.specs.Prelude.{◌≡◌, ◌≤◌, ◌*◌, IfOk, replicate};
ghost use Rattle.numbers.specs.Said.{said};
ghost use Rattle.tables.specs.Limits.{most_machines, most_controls};
ghost use Rattle.reading_model.specs.Machines.{read_factor, read_sizes, read_starts, counted_machines, read_machines};

use numbers::reader::Reader;
use numbers::refusal::Refusal;
use tables::tables::{MOST_CONTROLS, MOST_MACHINES, MOST_STATES, Machines};

// A number for each machine; 0 where there is none.
type Each = [u8; MOST_MACHINES as usize];

// How many machines there are.
#[derive(Clone, Copy)]
struct Count {
    machines: u8,
    ghost few: { machines ≤ most_machines },
}

// How many states the next machine has, after machines with this product.
#[tactic(auto, using(numbers::specs::Laws::Parts::handed_on), unfolding(crate::specs::Machines::read_factor))]
fn read_factor(r: &mut Reader<'_>, product: usize) -> Result<u8, Refusal>
    requires { product ≤ most_controls }
    ensures read { said result r.new.place ≡ read_factor r.old.bytes.now r.old.place product }
    ensures most { IfOk result (λ v. product * v ≤ most_controls) }
    ensures bytes { r.new.bytes ≡ r.old.bytes }
{
    let at = r.place;
    let v = r.within(1, MOST_STATES)?;
    if MOST_CONTROLS < product * usize::from(v) {
        return Err(Refusal::PassesLimit(at));
    }
    Ok(v)
}

// The product of the machines' states, and the states of each.
fn read_sizes(r: &mut Reader<'_>, count: Count) -> Result<(usize, Each), Refusal>
    ensures read { said result r.new.place ≡ read_sizes r.old.bytes.now r.old.place 1 count.machines 0 (replicate most_machines 0) }
    ensures bytes { r.new.bytes ≡ r.old.bytes }
{
    let mut product = 1;
    let mut sizes = [0u8; MOST_MACHINES as usize];
    for i in 0..usize::from(count.machines) {
        let v = read_factor(r, product)?;
        sizes[i] = v;
        product *= usize::from(v);
    }
    Ok((product, sizes))
}

// The starting state of each machine.
fn read_starts(r: &mut Reader<'_>, sizes: Each, count: Count) -> Result<Each, Refusal>
    ensures read { said result r.new.place ≡ read_starts r.old.bytes.now r.old.place sizes count.machines 0 (replicate most_machines 0) }
    ensures bytes { r.new.bytes ≡ r.old.bytes }
{
    let mut starts = [0u8; MOST_MACHINES as usize];
    for i in 0..usize::from(count.machines) {
        starts[i] = r.below(usize::from(sizes[i]))?;
    }
    Ok(starts)
}

// Both, for machines of this count.
#[tactic(auto, using(numbers::specs::Laws::Parts::handed_on), unfolding(crate::specs::Machines::counted_machines))]
fn read_counted(r: &mut Reader<'_>, count: Count) -> Result<Machines, Refusal>
    ensures read { said result r.new.place ≡ counted_machines r.old.bytes.now r.old.place count.machines }
    ensures bytes { r.new.bytes ≡ r.old.bytes }
{
    let (product, states) = read_sizes(r, count)?;
    let starts = read_starts(r, states, count)?;
    Ok(Machines {
        count: count.machines,
        product,
        states,
        starts,
    })
}

// Whether the file resumes, and its machines. A first number above the most machines says that it resumes; it has that many machines less
// the most.
#[tactic(auto, using(numbers::specs::Laws::Parts::handed_on), unfolding(crate::specs::Machines::read_machines))]
pub(crate) fn read_machines(r: &mut Reader<'_>) -> Result<(bool, Machines), Refusal>
    ensures read { said result r.new.place ≡ read_machines r.old.bytes.now r.old.place }
    ensures bytes { r.new.bytes ≡ r.old.bytes }
{
    let first = r.within(1, MOST_MACHINES + MOST_MACHINES)?;
    let resumes = MOST_MACHINES < first;
    let machines = if resumes {
        first - MOST_MACHINES
    } else {
        first
    };
    Ok((resumes, read_counted(r, Count { machines })?))
}
