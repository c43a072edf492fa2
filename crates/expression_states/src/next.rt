// What leads from state to state.
ghost use Rattle.std.specs.Prelude.{◌≡◌};
ghost use Rattle.expression_states.specs.States.{next_of};

use expression_sets::sets::{MOST_OCCURRENCES, Occurrences};
use tables::kinds::Message;

// What may begin a word, what may follow each occurrence, and the occurrences of each message.
#[derive(Clone, Copy)]
pub struct Moves<'a> {
    pub first: Occurrences,
    pub follow: &'a [Occurrences; MOST_OCCURRENCES],
    pub marks: &'a [Occurrences; Message::LIMIT],
}

impl Moves<'_> {
    // What may come next: at the start, which is the empty set, what may begin a word.
    pub fn next(&self, state: Occurrences) -> Occurrences
        ensures { result ≡ next_of self.now.first self.now.follow.now state }
    {
        if state.is_empty() {
            return self.first;
        }
        state.gather(self.follow)
    }
}
