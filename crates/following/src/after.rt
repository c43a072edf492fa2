// The contents after a step, which lie nowhere as a whole: those before it up to the cut, the messages that the step puts in, and behind what
// it takes out the rest of those before it.
ghost use Rattle.std.specs.Prelude.{◌≡◌, ◌≤◌, length, take};
ghost use Rattle.tables.specs.Limits.{most_pool};
ghost use Rattle.tables.specs.Kinds.{reached_of};
ghost use Rattle.tables.specs.Lookup.{ArcsSmall};
ghost use Rattle.theory_model.specs.Judge.{exchanged};
ghost use Rattle.following.specs.Follow.{far_arcs};
ghost use Rattle.following.specs.Standing.{word_over, WordWithin};
ghost use Rattle.following.specs.After.{ContentsAt, FrontEnds};

use crate::messages::{Ring, WORD_ROOM};
use crate::part::follow_part;
use tables::kinds::Reached;
use tables::tables::CONTENTS_LEAST;

// What a step makes of contents: behind the messages below the cut so many are taken out, and the first ones of the word at this entry of the
// table are put in.
#[derive(Clone, Copy, Debug, PartialEq, Eq)]
pub struct Exchange {
    pub cut: u8,
    pub out: usize,
    pub word: usize,
    pub into: usize,
}

// How many messages below the cut the contents begin with.
fn front_of(contents: &[u8], shown: usize, cut: u8) -> usize
    requires { shown ≤ length contents.now }
    ensures { FrontEnds contents.now shown cut result }
{
    for i in 0..shown {
        if cut <= contents[i] {
            return i;
        }
    }
    shown
}

// How far the contents after the step are followed from its target's root, each message once. A target without a root follows none.
pub fn far_after(
    arcs: &[u8],
    rows: &[u8],
    x: Exchange,
    target: Reached,
    contents: &[u8],
    shown: usize,
) -> usize
    requires arcs_small { ArcsSmall arcs.now }
    requires word_within { WordWithin rows.now x.word x.into }
    requires target_le_most_pool { target.0 ≤ most_pool }
    requires contents_at { ContentsAt contents.now shown }
    ensures { result ≡ far_arcs arcs.now (reached_of target.0) (exchanged x.cut x.out (word_over rows.now x.word x.into) (take shown contents.now)) }
{
    let kept = front_of(contents, shown, x.cut);
    let below = Ring::<CONTENTS_LEAST> {
        table: contents,
        base: 0,
        head: 0,
        count: kept,
    };
    let front = follow_part(arcs, target, below);
    let put = Ring::<WORD_ROOM> {
        table: rows,
        base: x.word,
        head: 0,
        count: x.into,
    };
    let word = follow_part(arcs, front.to, put);
    if shown - kept <= x.out {
        return front.far + word.far;
    }
    let behind = kept + x.out;
    let left = Ring::<CONTENTS_LEAST> {
        table: contents,
        base: 0,
        head: behind,
        count: shown - behind,
    };
    let rest = follow_part(arcs, word.to, left);
    front.far + word.far + rest.far
}
