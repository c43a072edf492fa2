// The tables of a pool from the list of states: where each message leads from each, and which are final.
ghost use Rattle.std.specs.Prelude.{◌≡◌, ◌+◌, ◌≤◌, length, get_or};
ghost use Rattle.tables.specs.Limits.{most_messages, most_pool};
ghost use Rattle.tables.specs.Pool.{pool_arcs};
ghost use Rattle.expression_pool.specs.Filled.{entries_from, arc_to, final_mark};
ghost use Rattle.expression_pool.specs.Fills.{FillsRow, FillsArcs};

use expression_sets::sets::Occurrences;
use expression_states::grow::place_of;
use expression_states::next::Moves;
use tables::kinds::{DiagramState, Message};
use tables::tables::{ARCS, POOL_ARCS};

// An entry of the table of arcs: 0 for the empty set, else 1 plus the place of the set.
fn arc_to(states: &[Occurrences], set: Occurrences) -> u8
    requires { length states.now ≤ most_pool }
    ensures { result ≡ arc_to states.now set }
{
    if set.is_empty() {
        return 0;
    }
    match place_of(states, set) {
        Some(place) => (place + 1) as u8,
        None => 0,
    }
}

// The arcs of one state, its row of the table, out of what may come next.
fn fill_row(
    next: Occurrences,
    marks: &[Occurrences; Message::LIMIT],
    states: &[Occurrences],
    row: usize,
    arcs: &mut [u8; POOL_ARCS],
)
    requires states_len_bound { length states.now ≤ most_pool }
    requires most_messages_bound { row + most_messages ≤ pool_arcs }
    ensures { FillsRow states.now next marks.now row arcs.old arcs.new }
{
    for (m, &mark) in marks.iter().enumerate() {
        arcs[row + m] = arc_to(states, next & mark);
    }
}

// The arcs of all states.
pub fn fill_arcs(moves: &Moves<'_>, states: &[Occurrences], arcs: &mut [u8; POOL_ARCS])
    requires { length states.now ≤ most_pool }
    ensures { FillsArcs states.now moves.now.first moves.now.follow.now moves.now.marks.now arcs.old arcs.new }
{
    for (i, &state) in states.iter().enumerate() {
        fill_row(moves.next(state), moves.marks, states, i * ARCS, arcs);
    }
}

// 1 if a word may end there: at the start if the empty word is one, at a set if one of its occurrences may be the last.
fn final_mark(skips: bool, last: Occurrences, state: Occurrences) -> u8
    ensures { result ≡ final_mark skips last state }
{
    if state.is_empty() {
        return u8::from(skips);
    }
    u8::from(!(state & last).is_empty())
}

// The final marks of all states.
pub fn fill_finals(
    skips: bool,
    last: Occurrences,
    states: &[Occurrences],
    finals: &mut [u8; DiagramState::LIMIT],
)
    requires { length states.now ≤ most_pool }
    ensures { finals.new ≡ entries_from (λ i. final_mark skips last (get_or states.now i 0)) (length states.now) 0 finals.old }
{
    for (i, &state) in states.iter().enumerate() {
        finals[i] = final_mark(skips, last, state);
    }
}
