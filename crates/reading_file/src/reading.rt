// Reading: from the bytes of a session file to its tables, or to a refusal with its place. Field after field; the bytes are
// not copied.
ghost use Rattle.std.specs.Prelude.{◌≡◌, OnErr};
ghost use Rattle.numbers.specs.Said.{said_with};
ghost use Rattle.reading_file.specs.File.{Reads, read_file};
ghost use Rattle.reading_file.specs.Lent.{Blank, headed, lent_tables, lent_reading};

use crate::ends::read_ends;
use numbers::reader::Reader;
use numbers::refusal::{MOST_BYTES, Refusal};
use reading_model::fields::read_model;
use reading_pool::pool::read_pool;
use tables::head::Head;
use tables::kinds::DiagramState;
use tables::tables::{
    BadList, ENTRIES, MOST_CONTROLS, Map, POOL_ARCS, Pool, ROWS, SetTables, Tables, Transitions,
};

// What reading answers beside the three large tables. Those are lent: handed on by value they would be copied at every return. The sets stay as
// they were read. The order of the fields moves the instructions of reading by some percent, by another amount for each file.
#[derive(Clone, Copy)]
pub struct HeadRead {
    pub sets: SetTables,
    pub head: Head,
}

impl HeadRead {
    // All tables, with the three that were lent. Whoever only looks at them asks for them here: inside the `Result` of `read` they are copied once more.
    pub fn tables(
        self,
        rows: &[u8; ROWS],
        finals: &[u8; DiagramState::LIMIT],
        arcs: &[u8; POOL_ARCS],
    ) -> Tables
        ensures { result ≡ lent_tables rows.now finals.now arcs.now self }
    {
        let head = self.head;
        let sets = self.sets;
        let entries = sets.bad.rows;
        Tables {
            machines: head.machines,
            queues: head.queues,
            transitions: Transitions {
                count: head.transitions,
                rows: *rows,
            },
            pool: Pool {
                count: head.states,
                finals: *finals,
                arcs: *arcs,
            },
            map: sets.map,
            bad: BadList {
                count: head.bad,
                rows: entries,
            },
        }
    }
}

// Field after field, from the first byte on. A refusal leaves the lent tables as far as they were filled.
fn read_open(
    r: &mut Reader<'_>,
    rows: &mut [u8; ROWS],
    finals: &mut [u8; DiagramState::LIMIT],
    arcs: &mut [u8; POOL_ARCS],
    sets: &mut SetTables,
) -> Result<Head, Refusal>
    requires blank { Blank rows.old finals.old arcs.old }
    requires begins { r.old.place ≡ 0 }
    ensures { said_with (headed rows.new finals.new arcs.new sets.new) result r.new.place ≡ read_file r.old.bytes.now }
{
    if MOST_BYTES < r.bytes.len() {
        return Err(Refusal::TooLong);
    }
    let model = read_model(r, rows)?;
    let machines = model.machines;
    let queues = model.queues;
    let states = read_pool(r, queues.sum, finals, arcs)?;
    read_ends(r, machines.product, &queues, states, finals, arcs, sets)?;
    Ok(Head {
        machines,
        queues,
        transitions: model.transitions,
        states,
        bad: sets.bad.count,
    })
}

// The same from a file's bytes; after a refusal the lent tables are all 0 again.
pub fn read_into(
    s: &[u8],
    rows: &mut [u8; ROWS],
    finals: &mut [u8; DiagramState::LIMIT],
    arcs: &mut [u8; POOL_ARCS],
) -> Result<HeadRead, Refusal>
    requires { Blank rows.old finals.old arcs.old }
    ensures reads { Reads (read_file s.now) (lent_reading result rows.new finals.new arcs.new) }
    ensures cleared { OnErr result (Blank rows.new finals.new arcs.new) }
{
    let mut r = Reader::new(s, 0);
    let mut sets = SetTables {
        map: Map {
            roots: [0u8; MOST_CONTROLS],
        },
        bad: BadList {
            count: 0,
            rows: [0u8; ENTRIES],
        },
    };
    match read_open(&mut r, rows, finals, arcs, &mut sets) {
        Ok(head) => Ok(HeadRead { sets, head }),
        Err(why) => {
            *rows = [0u8; ROWS];
            *finals = [0u8; DiagramState::LIMIT];
            *arcs = [0u8; POOL_ARCS];
            Err(why)
        }
    }
}

// The tables of a session file, or why it is refused.
pub fn read(s: &[u8]) -> Result<Tables, Refusal>
    ensures { Reads (read_file s.now) result }
{
    let mut rows = [0u8; ROWS];
    let mut finals = [0u8; DiagramState::LIMIT];
    let mut arcs = [0u8; POOL_ARCS];
    let read = read_into(s, &mut rows, &mut finals, &mut arcs)?;
    Ok(read.tables(&rows, &finals, &arcs))
}
