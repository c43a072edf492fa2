// The states, found breadth first: each goes to the end of the list, unless it is there.
ghost use Rattle.std.specs.Prelude.{◌≡◌, ◌==◌, ◌+◌, ◌≤◌, ◌<◌, position, take};
ghost use Rattle.tables.specs.Limits.{most_messages, most_pool};
ghost use Rattle.expression_states.specs.Grows.{a_state, Grows, AddsNext, FindsStates};

use crate::next::Moves;
use expression_sets::sets::Occurrences;
use tables::kinds::{DiagramState, Message};

// Room for a state whose messages all lead to new ones after the last that is allowed.
pub const MOST_LISTED: usize = DiagramState::LIMIT + Message::LIMIT;

// The place of a set among the states.
pub fn place_of(states: &[Occurrences], set: Occurrences) -> Option<usize>
    ensures { result ≡ position (λ state. state == set) states.now }
{
    states.iter().position(|state| *state == set)
}

// A list of states: so many sets at the front of a table.
#[derive(Drop)]
pub struct States {
    pub sets: [Occurrences; MOST_LISTED],
    pub count: usize,
}

impl States {
    pub fn found(&self) -> &[Occurrences]
        requires { self.now.count ≤ most_pool + most_messages }
        ensures { result.now ≡ take self.now.count self.now.sets }
    {
        &self.sets[..self.count]
    }

    // A set goes to the end, unless it is empty or there.
    fn add(&mut self, set: Occurrences)
        requires { self.old.count < most_pool + most_messages }
        ensures { Grows self.old.sets self.old.count 1 (a_state set) self.new.sets self.new.count }
    {
        if set.is_empty() {
            return;
        }
        if place_of(self.found(), set).is_some() {
            return;
        }
        self.sets[self.count] = set;
        self.count += 1;
    }

    // The sets that the messages lead to, out of those that may come next.
    fn add_next(&mut self, next: Occurrences, marks: &[Occurrences; Message::LIMIT])
        requires { self.old.count ≤ most_pool }
        ensures { AddsNext next marks.now self.old.sets self.old.count self.new.sets self.new.count }
    {
        for &mark in marks {
            self.add(next & mark);
        }
    }

    // All states, or more than a diagram may have.
    pub fn grow(moves: &Moves<'_>) -> States
        ensures { FindsStates moves.now.first moves.now.follow.now moves.now.marks.now result.sets result.count }
    {
        let mut states = States {
            sets: [Occurrences::NONE; MOST_LISTED],
            count: 1,
        };
        // Counted by hand: the list grows while it is walked, so no range or slice stands for its places.
        let mut at = 0;
        while at < states.count {
            if DiagramState::LIMIT < states.count {
                return states;
            }
            let next = moves.next(states.sets[at]);
            states.add_next(next, moves.marks);
            at += 1;
        }
        states
    }
}
