// The diagram for just the language of an expression, or why there is none.
ghost use Rattle.std.specs.Prelude.{◌≡◌, OnErr};
ghost use Rattle.expression.specs.Expression.{empty_pool, draw, expression};
ghost use Rattle.expression.specs.declared.draw.ExpressionRefusal.TheVariants.{Outside, Offender};
ghost use Rattle.expression.specs.Said.{refusal_number, refusal_place, drawn, said_drawing, automaton_of};

use expression_parse::cycle::parse;
use expression_parse::parts::{Part, Stuck};
use expression_pool::fill::{fill_arcs, fill_finals};
use expression_scan::limits::{Excess, Offence, check};
use expression_sets::sets::{MOST_OCCURRENCES, Occurrences, Occurring};
use expression_states::grow::States;
use expression_states::next::Moves;
use numbers::refusal::{OUTSIDE_GRAMMAR, TEXT_TOO_LONG, TOO_MANY_STATES};
use tables::kinds::DiagramState;
use tables::tables::{POOL_ARCS, Pool};

// The most bytes of a text.
pub const MOST_TEXT: usize = 256;

// A pool, and the state from which just the language is accepted.
#[derive(Clone, Copy)]
pub struct Drawing {
    pub root: DiagramState,
    pub pool: Pool,
}

// Why there is no diagram for a text.
#[derive(Clone, Copy, Debug, PartialEq, Eq)]
pub enum ExpressionRefusal {
    // more bytes than a text may have
    TooLong,
    // outside the grammar, with the length of the longest beginning that some text of the grammar shares
    Outside(usize),
    // the leftmost offence against the limits, and its place
    Offender(Excess, usize),
    // more states than a diagram may have
    TooManyStates,
}

impl ExpressionRefusal {
    // The number of the refusal, of document 02.
    pub fn number(self) -> usize
        ensures { result ≡ refusal_number self }
    {
        match self {
            ExpressionRefusal::TooLong => TEXT_TOO_LONG,
            ExpressionRefusal::Outside(_) => OUTSIDE_GRAMMAR,
            ExpressionRefusal::Offender(excess, _) => excess.number(),
            ExpressionRefusal::TooManyStates => TOO_MANY_STATES,
        }
    }

    // Its place; of a text that is too long, how long one may be.
    pub fn place(self) -> usize
        ensures { result ≡ refusal_place self }
    {
        match self {
            ExpressionRefusal::TooLong => MOST_TEXT,
            ExpressionRefusal::Outside(place) => place,
            ExpressionRefusal::Offender(_, place) => place,
            ExpressionRefusal::TooManyStates => 0,
        }
    }
}

impl From<Stuck> for ExpressionRefusal {
    ghost from_gives = { λ stuck e. e ≡ Outside stuck.0 };

    fn from(stuck: Stuck) -> ExpressionRefusal {
        ExpressionRefusal::Outside(stuck.0)
    }
}

impl From<Offence> for ExpressionRefusal {
    ghost from_gives = { λ o e. e ≡ Offender o.excess o.place };

    fn from(offence: Offence) -> ExpressionRefusal {
        ExpressionRefusal::Offender(offence.excess, offence.place)
    }
}

// The diagram for a text that keeps within the limits.
fn draw(
    part: Part,
    occurring: &Occurring,
    pool: &mut Pool,
) -> Result<DiagramState, ExpressionRefusal>
    requires { pool.old ≡ empty_pool }
    ensures draws { said_drawing (drawn result pool.new) ≡ draw (automaton_of part occurring.now.follow occurring.now.label) }
    ensures kept { OnErr result (pool.new ≡ pool.old) }
{
    let marks = occurring.marks();
    let moves = Moves {
        first: part.first,
        follow: &occurring.follow,
        marks: &marks,
    };
    let states = States::grow(&moves);
    if DiagramState::LIMIT < states.count {
        return Err(ExpressionRefusal::TooManyStates);
    }
    let found = states.found();
    pool.count = states.count as u8;
    fill_finals(part.skips, part.last, found, &mut pool.finals);
    fill_arcs(&moves, found, &mut pool.arcs);
    Ok(DiagramState(0))
}

// The root for just the language of a text, with its pool in one that is lent and all 0; after a refusal that is as it was.
pub fn expression_into(text: &[u8], pool: &mut Pool) -> Result<DiagramState, ExpressionRefusal>
    requires { pool.old ≡ empty_pool }
    ensures draws { said_drawing (drawn result pool.new) ≡ expression text.now }
    ensures kept { OnErr result (pool.new ≡ pool.old) }
{
    if MOST_TEXT < text.len() {
        return Err(ExpressionRefusal::TooLong);
    }
    let mut occurring = Occurring {
        label: [0u8; MOST_OCCURRENCES],
        follow: [Occurrences::NONE; MOST_OCCURRENCES],
    };
    let part = parse(text, &mut occurring)?;
    check(text)?;
    draw(part, &occurring, pool)
}

// The pool and root for just the language of a text, or a refusal with its place.
pub fn expression(text: &[u8]) -> Result<Drawing, ExpressionRefusal>
    ensures { said_drawing result ≡ expression text.now }
{
    let mut pool = Pool {
        count: 0,
        finals: [0u8; DiagramState::LIMIT],
        arcs: [0u8; POOL_ARCS],
    };
    let root = expression_into(text, &mut pool)?;
    Ok(Drawing { root, pool })
}
