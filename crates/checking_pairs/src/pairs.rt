// A walk, and its pairs as numbers: the side, the source state, and the target state or nowhere.
ghost use Rattle.std.specs.Prelude.{◌<◌};
ghost use Rattle.checking_pairs.specs.Pairs.{most_codes, NodeOf, NodeFits, Coded};

use tables::kinds::{DiagramState, Reached};

// What a walk needs of its step or bad entry. Before it only messages below the cut are read, after it only those from the cut on.
#[derive(Clone, Copy, Debug, PartialEq, Eq)]
pub struct Walk {
    pub cut: u8,
    // The number of all messages.
    pub sum: u8,
    // The word's first entry in the table of transitions, and how many messages of it are taken out and put in.
    pub word: usize,
    pub out: usize,
    pub into: usize,
    // Of a bad entry the target must not be nowhere.
    pub entry: bool,
}

// A pair: its side by the side's first code, and its two places. That it fits the codes (NodeFits) is asked in contracts and is no ghost
// field: the laws of crates above build nodes of any three numbers, and each would have to carry the proof with it.
#[derive(Clone, Copy)]
pub struct Node {
    pub side: usize,
    pub source: DiagramState,
    pub target: Reached,
}

// The targets of a source: every state, and nowhere. A fixed stride keeps every bound linear.
const STRIDE: usize = DiagramState::LIMIT + 1;

// The first code of the after side.
pub const AFTER: usize = DiagramState::LIMIT * STRIDE;

// The codes of both sides, and so the entries of a table that is lent.
pub const CODES: usize = 2 * AFTER;

impl Node {
    // The number of the pair that this stands for.
    pub fn code(self) -> usize
        requires { NodeFits self }
        ensures { Coded self result }
    {
        self.side + usize::from(self.source.0) * STRIDE + usize::from(self.target.0)
    }

    // The pair of this number.
    pub fn of(code: usize) -> Self
        requires { code < most_codes }
        ensures { NodeOf code result }
    {
        if code < AFTER {
            return Node {
                side: 0,
                source: DiagramState((code / STRIDE) as u8),
                target: Reached((code % STRIDE) as u8),
            };
        }
        let rest = code - AFTER;
        Node {
            side: AFTER,
            source: DiagramState((rest / STRIDE) as u8),
            target: Reached((rest % STRIDE) as u8),
        }
    }
}
