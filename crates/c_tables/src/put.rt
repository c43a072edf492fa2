// Putting the tables of a file into lent bytes, one after the other.
ghost use Rattle.std.specs.Prelude.{◌≤◌, length};
ghost use Rattle.numbers.specs.Put.{Put};
ghost use Rattle.c_tables.specs.Flat.{tables_least, flat};
ghost use Rattle.reading_file.specs.Valid.{Valid};

use numbers::put::{put_four, put_word};
use tables::tables::Tables;

// All tables, at the front of the space. Returns how many bytes that is.
pub fn put_flat(space: &mut [u8], t: Tables) -> usize
    requires valid { Valid t }
    requires tables_least_in_bounds { tables_least ≤ length space.old }
    ensures { Put space.old 0 tables_least (flat t) space.new result }
{
    let counts = [
        t.machines.count,
        t.queues.count,
        t.queues.sum,
        t.transitions.count,
        t.pool.count,
        t.bad.count,
    ];
    let m = &t.machines;
    let second = put_four(space, 0, &counts, &m.states, &m.starts, &t.queues.messages);
    let third = put_word(space, second, &t.queues.lengths);
    let fourth = put_word(space, third, &t.queues.contents);
    let fifth = put_four(
        space,
        fourth,
        &t.transitions.rows,
        &t.pool.finals,
        &t.pool.arcs,
        &t.map.roots,
    );
    put_word(space, fifth, &t.bad.rows)
}
