// What an expression tells, and the pool of its diagram as bytes.
ghost use Rattle.std.specs.Prelude.{◌≡◌, ◌++◌, ◌≤◌, length, drop};
ghost use Rattle.expression.specs.Said.{drawn, said_drawing};
ghost use Rattle.c_expression.specs.Drawn.{told_drawn, pool_least, pool_out, pool_after};

use c_replies::told::{Told, refused};
use expression::draw::ExpressionRefusal;
use numbers::put::put_word;
use tables::kinds::DiagramState;
use tables::tables::{POOL_ARCS, Pool};

// The kind of a diagram, as the header names it: a constant, since C compares numbers.
pub const DRAWN: usize = 15;

// Bytes that the pool's space needs: final marks and arcs.
pub const POOL_LEAST: usize = DiagramState::LIMIT + POOL_ARCS;

// The root and the number of states, or the refusal. A function, as those of `c_replies::told` are.
pub fn tell_drawn(root: Result<DiagramState, ExpressionRefusal>, pool: &Pool) -> Told
    ensures { result ≡ told_drawn (said_drawing (drawn root pool.now)).reply (said_drawing (drawn root pool.now)).pool.count }
{
    match root {
        Ok(root) => Told {
            kind: DRAWN,
            first: usize::from(root.0),
            second: usize::from(pool.count),
            third: 0,
            fourth: 0,
        },
        Err(refusal) => refused(refusal.number(), refusal.place()),
    }
}

// Final marks and arcs, one after the other.
fn put_pool(space: &mut [u8], pool: &Pool)
    requires { pool_least ≤ length space.old }
    ensures { space.new ≡ pool_out pool.now ++ drop pool_least space.old }
{
    let next = put_word(space, 0, &pool.finals);
    put_word(space, next, &pool.arcs);
}

// The pool of a diagram, at the front of the space; after a refusal the space is as it was.
pub fn put_drawn(space: &mut [u8], root: Result<DiagramState, ExpressionRefusal>, pool: &Pool)
    requires { pool_least ≤ length space.old }
    ensures { space.new ≡ pool_after (said_drawing (drawn root pool.now)).reply (said_drawing (drawn root pool.now)).pool space.old }
{
    if root.is_ok() {
        put_pool(space, pool);
    }
}
