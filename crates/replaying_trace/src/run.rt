// The loop of a replay over the record that a caller lends, and the service itself; `replay_from` is the service on a record by value.
ghost use Rattle.replaying_trace.specs.Tables.{view_without_bad};
ghost use Rattle.replaying_trace.specs.Reply.{Replays};
ghost use Rattle.replaying_trace.specs.Run.{opening, Ready, Ran};

use crate::progress::{Ended, Progress, ReplayRefusal, Replayed};
use crate::start::starting_record;
use numbers::number::wide;
use numbers::refusal::MOST_BYTES;
use reading_file::reading::read_into;
use replaying_queues::QUEUE_ROOM;
use replaying_queues::laying::lay_starting;
use replaying_step::runs::RunRecord;
use tables::kinds::DiagramState;
use tables::tables::{POOL_ARCS, ROWS};
use tables::view::TablesView;

// Step after step, to the form of the end; the record and the memory are lent on for each.
fn run(r: &mut RunRecord, t: &TablesView<'_>, trace: &[u8], memory: &mut [u8]) -> Ended
    requires { Ready (view_without_bad t.now) trace.now (opening r.old memory.old) }
    ensures { Ran (view_without_bad t.now) trace.now r.old memory.old result r.new memory.new }
{
    let mut p = Progress { at: 0, steps: 0 };
    'steps: loop {
        match p.step(r, t, trace, memory) {
            Ok(next) => p = next,
            Err(why) => {
                r.settle(t.head.queues, memory);
                return Ended {
                    why,
                    steps: p.steps,
                };
            }
        }
    }
}

// The service: a trace replayed against a file, in the record and the queue memory that the caller lends. The tables that the file is read
// into are those that every step reads.
pub fn replay(
    r: &mut RunRecord,
    file: &[u8],
    trace: &[u8],
    memory: &mut [u8],
) -> Result<Ended, ReplayRefusal>
    ensures { Replays file.now trace.now memory.old r.old result r.new memory.new }
{
    let mut rows = [0u8; ROWS];
    let mut finals = [0u8; DiagramState::LIMIT];
    let mut arcs = [0u8; POOL_ARCS];
    let read = read_into(file, &mut rows, &mut finals, &mut arcs)?;
    if MOST_BYTES < trace.len() {
        return Err(ReplayRefusal::TraceTooLong);
    }
    let head = read.head;
    let queues = head.queues;
    if memory.len() < wide(queues.count) * QUEUE_ROOM {
        return Err(ReplayRefusal::MemoryShort);
    }
    *r = starting_record(head.machines, queues);
    lay_starting(memory, queues);
    let t = TablesView {
        head,
        rows: &rows,
        finals: &finals,
        arcs: &arcs,
        roots: &read.sets.map.roots,
        entries: &read.sets.bad.rows,
    };
    Ok(run(r, &t, trace, memory))
}

// The same on a record by value.
pub fn replay_from(before: RunRecord, file: &[u8], trace: &[u8], memory: &mut [u8]) -> Replayed
    ensures { Replays file.now trace.now memory.old before result.ended result.record memory.new }
{
    let mut r = before;
    let ended = replay(&mut r, file, trace, memory);
    Replayed { record: r, ended }
}
