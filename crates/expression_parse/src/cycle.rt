// The grammar goes round: a group holds alternatives, an alternative holds items, and an item may be a group.
// The text, the place and the number of the next occurrence stand side by side: the place and the number are those of the part that was read, and
// a struct of the three would be made anew at each call.
ghost use Rattle.expression_parse.specs.Steps.{Ready, ItemReady, Alternatives, Alternative, Item, Whole};

use crate::parts::{Part, Stuck, ends, number, skip, stands};
use expression_scan::digits::is_digit;
use expression_sets::sets::{Occurrences, Occurring};

// The alternatives from a place on, up to the bracket that closes them or the end of the text. The next occurrence is k.
#[cycle(alternative_alternatives_item)]
fn alternatives(s: &[u8], at: usize, k: usize, occurring: &mut Occurring) -> Result<Part, Stuck>
    requires { Ready s.now at k }
    ensures { Alternatives s.now at k occurring.old.label occurring.old.follow occurring.new.label occurring.new.follow result }
{
    let head = alternative(s, at, k, occurring)?;
    let bar = head.next;
    if !stands(s, bar, b'|') {
        return Ok(head);
    }
    let from = skip(s, bar + 1);
    let rest = alternatives(s, from, head.count, occurring)?;
    Ok(head.either(rest))
}

// The items up to the end of the alternative.
#[cycle(alternative_alternatives_item)]
fn alternative(s: &[u8], at: usize, k: usize, occurring: &mut Occurring) -> Result<Part, Stuck>
    requires { Ready s.now at k }
    ensures { Alternative s.now at k occurring.old.label occurring.old.follow occurring.new.label occurring.new.follow result }
{
    if ends(s, at) {
        let empty = Part {
            next: at,
            count: k,
            first: Occurrences::NONE,
            last: Occurrences::NONE,
            skips: true,
        };
        return Ok(empty);
    }
    let head = item(s, at, k, occurring)?;
    let rest = alternative(s, head.next, head.count, occurring)?;
    Ok(head.sequence(rest, occurring))
}

// A number or a group, with its star.
#[cycle(alternative_alternatives_item)]
fn item(s: &[u8], at: usize, k: usize, occurring: &mut Occurring) -> Result<Part, Stuck>
    requires { ItemReady s.now at k }
    ensures { Item s.now at k occurring.old.label occurring.old.follow occurring.new.label occurring.new.follow result }
{
    let b = s[at];
    if is_digit(b) {
        return number(s, at, k, occurring);
    }
    if b != b'(' {
        return Err(Stuck(at));
    }
    let from = skip(s, at + 1);
    let group = alternatives(s, from, k, occurring)?;
    let end = group.next;
    if !stands(s, end, b')') {
        return Err(Stuck(end));
    }
    Ok(group.starred(s, end + 1, occurring))
}

// The whole text: the part that it is, or the place where it leaves the grammar. A bracket may close nothing.
pub fn parse(s: &[u8], occurring: &mut Occurring) -> Result<Part, Stuck>
    ensures { Whole s.now occurring.old.label occurring.old.follow occurring.new.label occurring.new.follow result }
{
    let from = skip(s, 0);
    let part = alternatives(s, from, 0, occurring)?;
    let end = part.next;
    if end < s.len() {
        return Err(Stuck(end));
    }
    Ok(part)
}
