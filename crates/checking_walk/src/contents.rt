// The contents shown: those of a pair that was found, laid last message first along its parents, and then turned round.
ghost use Rattle.std.specs.Prelude.{◌+◌, ◌≤◌, length};
ghost use Rattle.following.specs.Standing.{word_over, WordWithin};
ghost use Rattle.checking_walk.specs.Shown.{part_over, shown_over, Placed, Laid, Shown};
ghost use Rattle.tables.specs.Limits.{contents_least};

use crate::edges::edge_to;
use checking_pairs::marks::Marks;
use checking_pairs::over::WalkOver;

// A word of the table of transitions, laid last message first. Returns the next place. Message by message: the library's copy of a slice beside memory that
// is lent asks for `memmove`, which a program that links the archive need not have.
fn lay_word(rows: &[u8], word: usize, out: usize, contents: &mut [u8], start: usize) -> usize
    requires word_within { WordWithin rows.now word out }
    requires out_in_bounds { start + out ≤ length contents.old }
    ensures { Laid (word_over rows.now word out) start contents.old contents.new result }
{
    for k in 0..out {
        contents[start + k] = rows[word + (out - 1 - k)];
    }
    start + out
}

// What a letter stands for: a message, or for the step those that it takes out. Returns the next place.
fn lay_part(t: &WalkOver<'_>, letter: u8, contents: &mut [u8], n: usize) -> usize
    requires { n + length (part_over t.now.rows.now t.now.walk letter) ≤ length contents.old }
    ensures { Laid (part_over t.now.rows.now t.now.walk letter) n contents.old contents.new result }
{
    let w = t.walk;
    if letter == w.sum {
        return lay_word(t.rows, w.word, w.out, contents, n);
    }
    contents[n] = letter;
    n + 1
}

// The contents of the pair at place k of the queue, last message first. Returns their number. The places are followed from parent to
// parent, so no range has them.
fn backwards(t: &WalkOver<'_>, found: &Marks<'_>, k: usize, contents: &mut [u8]) -> usize
    requires placed { Placed found.now.seen.now found.now.queue.now k }
    requires k_in_bounds { length (shown_over t.now.arcs.now t.now.rows.now t.now.walk found.now.seen.now found.now.queue.now k) ≤ length contents.old }
    ensures { Laid (shown_over t.now.arcs.now t.now.rows.now t.now.walk found.now.seen.now found.now.queue.now k) 0 contents.old contents.new result }
{
    let mut at = k;
    let mut n: usize = 0;
    while 0 < at {
        let edge = edge_to(t, found, at);
        n = lay_part(t, edge.letter, contents, n);
        at = edge.parent;
    }
    n
}

// The contents of the pair at place k of the queue fill the front of the buffer. Returns their number.
pub(crate) fn show(t: &WalkOver<'_>, found: &Marks<'_>, k: usize, contents: &mut [u8]) -> usize
    requires placed { Placed found.now.seen.now found.now.queue.now k }
    requires k_len_bound { length (shown_over t.now.arcs.now t.now.rows.now t.now.walk found.now.seen.now found.now.queue.now k) ≤ contents_least }
    requires contents_least_in_bounds { contents_least ≤ length contents.old }
    ensures { Shown (shown_over t.now.arcs.now t.now.rows.now t.now.walk found.now.seen.now found.now.queue.now k) contents.old contents.new result }
{
    let n = backwards(t, found, k, contents);
    contents[..n].reverse();
    n
}
