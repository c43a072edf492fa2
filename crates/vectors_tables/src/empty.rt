// Tables whose entries are all 0, which stand for a file that is refused.
ghost use Rattle.std.specs.Prelude.{◌≡◌};
ghost use Rattle.reading_file.specs.File.{empty};

use tables::empty::{empty_machines, empty_queues};
use tables::kinds::DiagramState;
use tables::tables::{
    BadList, ENTRIES, MOST_CONTROLS, Map, POOL_ARCS, Pool, ROWS, Tables, Transitions,
};

pub(crate) fn empty_tables() -> Tables
    ensures { result ≡ empty }
{
    Tables {
        machines: empty_machines(),
        queues: empty_queues(),
        transitions: Transitions {
            count: 0,
            rows: [0u8; ROWS],
        },
        pool: Pool {
            count: 0,
            finals: [0u8; DiagramState::LIMIT],
            arcs: [0u8; POOL_ARCS],
        },
        map: Map {
            roots: [0u8; MOST_CONTROLS],
        },
        bad: BadList {
            count: 0,
            rows: [0u8; ENTRIES],
        },
    }
}
