// Field 4: the pool of diagram states.
ghost use Rattle.std.specs.Prelude.{◌≡◌, ◌+◌, ◌≤◌, ◌<◌, IfOk, replicate};
ghost use Rattle.numbers.specs.Said.{said, said_with};
ghost use Rattle.tables.specs.Limits.{most_pool, most_messages};
ghost use Rattle.tables.specs.Pool.{pool_arcs};
ghost use Rattle.reading_pool.specs.Pool.{read_ascending, read_arc, read_arcs, read_state, read_states, read_pool};
ghost use Rattle.reading_pool.specs.Lent.{lent_pool};

use numbers::reader::Reader;
use numbers::refusal::Refusal;
use tables::kinds::DiagramState;
use tables::tables::{ARCS, MOST_POOL, POOL_ARCS};

// How many states the pool has, and how many messages there are.
#[derive(Clone, Copy)]
struct Bounds {
    states: u8,
    messages: u8,
    ghost in_pool: { states ≤ most_pool },
    ghost in_queues: { messages ≤ most_messages },
}

// An arc's message: not below the least that still ascends.
#[tactic(auto, using(numbers::specs::Laws::Parts::handed_on), unfolding(crate::specs::Pool::read_ascending))]
fn read_ascending(r: &mut Reader<'_>, sum: u8, least: usize) -> Result<u8, Refusal>
    ensures read { said result r.new.place ≡ read_ascending r.old.bytes.now r.old.place sum least }
    ensures range { IfOk result (λ m. (least ≤ m) × (m < sum)) }
    ensures bytes { r.new.bytes ≡ r.old.bytes }
{
    let at = r.place;
    let m = r.below(usize::from(sum))?;
    if usize::from(m) < least {
        return Err(Refusal::NotAscending(at));
    }
    Ok(m)
}

// An arc: its message and its target.
#[tactic(auto, using(numbers::specs::Laws::Parts::handed_on), unfolding(crate::specs::Pool::read_arc))]
fn read_arc(r: &mut Reader<'_>, b: Bounds, least: usize) -> Result<(u8, u8), Refusal>
    ensures read { said result r.new.place ≡ read_arc r.old.bytes.now r.old.place b.states b.messages least }
    ensures range { IfOk result (λ arc. (least ≤ arc.0) × (arc.0 < b.messages) × (arc.1 < b.states)) }
    ensures bytes { r.new.bytes ≡ r.old.bytes }
{
    let message = read_ascending(r, b.messages, least)?;
    let target = r.below(usize::from(b.states))?;
    Ok((message, target))
}

// The arcs of a state, into the entries from row on.
fn read_arcs(
    r: &mut Reader<'_>,
    b: Bounds,
    row: usize,
    count: u8,
    arcs: &mut [u8; POOL_ARCS],
) -> Result<(), Refusal>
    requires { row + most_messages ≤ pool_arcs }
    ensures read { said_with (λ _. arcs.new) result r.new.place ≡ read_arcs r.old.bytes.now r.old.place b.states b.messages 0 row count arcs.old }
    ensures bytes { r.new.bytes ≡ r.old.bytes }
{
    let mut least = 0;
    for _i in 0..count {
        let (message, target) = read_arc(r, b, least)?;
        let raw = usize::from(message);
        arcs[row + raw] = target + 1;
        least = raw + 1;
    }
    Ok(())
}

// A state: whether it is final, and its arcs.
#[tactic(auto, using(numbers::specs::Laws::Parts::handed_on_with), unfolding(crate::specs::Pool::read_state))]
fn read_state(
    r: &mut Reader<'_>,
    b: Bounds,
    row: usize,
    arcs: &mut [u8; POOL_ARCS],
) -> Result<u8, Refusal>
    requires { row + most_messages ≤ pool_arcs }
    ensures read { said_with (λ last. (last, arcs.new)) result r.new.place ≡ read_state r.old.bytes.now r.old.place b.states b.messages row arcs.old }
    ensures bytes { r.new.bytes ≡ r.old.bytes }
{
    let last = r.below(2)?;
    let count = r.within(0, b.messages)?;
    read_arcs(r, b, row, count, arcs)?;
    Ok(last)
}

fn read_states(
    r: &mut Reader<'_>,
    b: Bounds,
    finals: &mut [u8; DiagramState::LIMIT],
    arcs: &mut [u8; POOL_ARCS],
) -> Result<(), Refusal>
    ensures read { said_with (λ _. (finals.new, arcs.new)) result r.new.place ≡ read_states r.old.bytes.now r.old.place b.states b.messages b.states 0 finals.old arcs.old }
    ensures bytes { r.new.bytes ≡ r.old.bytes }
{
    for i in 0..usize::from(b.states) {
        finals[i] = read_state(r, b, i * ARCS, arcs)?;
    }
    Ok(())
}

// How many states there are. They go into two tables of 0, which are lent: they are large, and would be copied at every return.
#[tactic(auto, using(numbers::specs::Laws::Parts::handed_on_with), unfolding(crate::specs::Pool::read_pool))]
pub fn read_pool(
    r: &mut Reader<'_>,
    sum: u8,
    finals: &mut [u8; DiagramState::LIMIT],
    arcs: &mut [u8; POOL_ARCS],
) -> Result<u8, Refusal>
    requires sum_le_most_messages { sum ≤ most_messages }
    requires finals_value { finals.old ≡ replicate most_pool 0 }
    requires arcs_value { arcs.old ≡ replicate pool_arcs 0 }
    ensures read { said_with (λ count. lent_pool count finals.new arcs.new) result r.new.place ≡ read_pool r.old.bytes.now r.old.place sum }
    ensures bytes { r.new.bytes ≡ r.old.bytes }
{
    let states = r.within(1, MOST_POOL)?;
    let b = Bounds {
        states,
        messages: sum,
    };
    read_states(r, b, finals, arcs)?;
    Ok(states)
}
