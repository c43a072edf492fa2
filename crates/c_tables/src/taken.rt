// The small tables of flat bytes, by value.
ghost use Rattle.std.specs.Prelude.{◌≡◌, ◌+◌, ◌≤◌, length, get_or};
ghost use Rattle.tables.specs.Limits.{most_machines};
ghost use Rattle.tables.specs.Starting.{starting_length};
ghost use Rattle.tables.specs.Valid.{product_of};
ghost use Rattle.c_tables.specs.Flat.{tables_least};
ghost use Rattle.c_tables.specs.Taken.{part, machines_place, contents_place, machines_at, queues_at, head_at};

use crate::places::{
    BAD_PLACE, CONTENTS_PLACE, LENGTHS_PLACE, MACHINES_PLACE, MESSAGES_PLACE, POOL_PLACE,
    QUEUES_PLACE, STARTS_PLACE, STATES_PLACE, SUM_PLACE, TRANSITIONS_PLACE,
};
use tables::head::Head;
use tables::tables::{Machines, Queues};

// So many bytes from a place on.
fn part_at<const N: usize>(tables: &[u8], at: usize) -> [u8; N]
    requires { at + N ≤ length tables.now }
    ensures { result ≡ part at N tables.now }
{
    let mut bytes = [0u8; N];
    bytes.copy_from_slice(&tables[at..at + N]);
    bytes
}

// The product of the first entries. `controls` has that of the machines from one on, the last first, as its definition goes.
fn product(states: &[u8], count: usize) -> usize
    requires count_le_most_machines { count ≤ most_machines }
    requires states_len { length states.now ≡ most_machines }
    ensures { result ≡ product_of states.now count }
{
    let mut product: usize = 1;
    for &size in &states[..count] {
        product *= size as usize;
    }
    product
}

fn machines_at(tables: &[u8]) -> Machines
    requires tables_least_in_bounds { tables_least ≤ length tables.now }
    requires machines_place_bound { get_or tables.now machines_place 0 ≤ most_machines }
    ensures { result ≡ machines_at tables.now }
{
    let count = tables[MACHINES_PLACE];
    let states = part_at(tables, STATES_PLACE);
    Machines {
        count,
        product: product(&states, count as usize),
        states,
        starts: part_at(tables, STARTS_PLACE),
    }
}

fn queues_at(tables: &[u8]) -> Queues
    requires { tables_least ≤ length tables.now }
    ensures { result ≡ queues_at tables.now }
{
    Queues {
        count: tables[QUEUES_PLACE],
        sum: tables[SUM_PLACE],
        messages: part_at(tables, MESSAGES_PLACE),
        lengths: part_at(tables, LENGTHS_PLACE),
        contents: part_at(tables, CONTENTS_PLACE),
    }
}

pub(crate) fn head_at(tables: &[u8]) -> Head
    requires tables_least_in_bounds { tables_least ≤ length tables.now }
    requires machines_place_bound { get_or tables.now machines_place 0 ≤ most_machines }
    ensures { result ≡ head_at tables.now }
{
    Head {
        machines: machines_at(tables),
        queues: queues_at(tables),
        transitions: tables[TRANSITIONS_PLACE],
        states: tables[POOL_PLACE],
        bad: tables[BAD_PLACE],
    }
}
