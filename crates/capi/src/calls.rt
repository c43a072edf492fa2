// What C calls. A call whose output space is too short answers NO_ROOM and touches nothing.
ghost use Rattle.std.specs.Prelude.{◌≡◌};
ghost use Rattle.capi.specs.Calls.{layout, ReadCall, WriteCall, MemberCall, CheckCall, ReplayCall, ExpressionCall};

use c_expression::drawn::{POOL_LEAST, put_drawn, tell_drawn};
use c_replies::replays::{RECORD_LEAST, put_run, tell_replay};
use c_replies::told::{
    NO_ROOM, READ, REPLY_LEAST, bare, put_told, tell_member, tell_refusal, tell_verdict,
    tell_written,
};
use c_tables::places::TABLES_LEAST;
use c_tables::put::put_flat;
use c_tables::write::write_flat;
use checking_file::check::check;
use expression::draw::expression_into;
use membership::member::member;
use reading_file::reading::read_into;
use replaying_step::runs::RunRecord;
use replaying_trace::run::replay;
use tables::kinds::DiagramState;
use tables::tables::{MOST_MACHINES, MOST_QUEUES, POOL_ARCS, Pool, ROWS};

// The number of the layout.
const LAYOUT: usize = 4;

// The number of the library's layout, for a program to compare with that of the header it was built with.
#[unsafe(no_mangle)]
pub extern "C" fn swarmbanner_layout() -> usize
    ensures { result ≡ layout }
{
    LAYOUT
}

// Reads a file. Its tables fill the front of the space; after a refusal the space is as it was.
#[unsafe(no_mangle)]
pub extern "C" fn swarmbanner_read(file: &[u8], space: &mut [u8], reply: &mut [usize]) -> usize
    ensures { ReadCall file.now space.old reply.old result space.new reply.new }
{
    if space.len() < TABLES_LEAST {
        return NO_ROOM;
    }
    if reply.len() < REPLY_LEAST {
        return NO_ROOM;
    }
    let mut rows = [0u8; ROWS];
    let mut finals = [0u8; DiagramState::LIMIT];
    let mut arcs = [0u8; POOL_ARCS];
    match read_into(file, &mut rows, &mut finals, &mut arcs) {
        Err(why) => put_told(reply, tell_refusal(why)),
        Ok(read) => {
            put_flat(space, read.tables(&rows, &finals, &arcs));
            put_told(reply, bare(READ))
        }
    }
}

// Writes the file that is read into these tables, which lie as `swarmbanner_read` puts them. After a refusal the buffer is as it was.
#[unsafe(no_mangle)]
pub extern "C" fn swarmbanner_write(tables: &[u8], buffer: &mut [u8], reply: &mut [usize]) -> usize
    ensures { WriteCall tables.now buffer.old reply.old result buffer.new reply.new }
{
    if reply.len() < REPLY_LEAST {
        return NO_ROOM;
    }
    let written = write_flat(tables, buffer);
    put_told(reply, tell_written(written))
}

// Do these contents belong to this control state of the file?
#[unsafe(no_mangle)]
pub extern "C" fn swarmbanner_member(
    file: &[u8],
    control: usize,
    contents: &[u8],
    reply: &mut [usize],
) -> usize
    ensures { MemberCall file.now control contents.now reply.old result reply.new }
{
    if reply.len() < REPLY_LEAST {
        return NO_ROOM;
    }
    let m = member(file, control, contents);
    put_told(reply, tell_member(m))
}

// Checks a file, with the promises of `check` about tables and contents.
#[unsafe(no_mangle)]
pub extern "C" fn swarmbanner_check(
    file: &[u8],
    seen: &mut [u16],
    queue: &mut [u16],
    contents: &mut [u8],
    reply: &mut [usize],
) -> usize
    ensures { CheckCall file.now seen.old queue.old contents.old reply.old result seen.new queue.new contents.new reply.new }
{
    if reply.len() < REPLY_LEAST {
        return NO_ROOM;
    }
    let verdict = check(file, seen, queue, contents);
    put_told(reply, tell_verdict(verdict))
}

// Replays a trace, with the promises of `replay` about the queue memory. The record's numbers fill the front of their space; after a refusal
// of file, trace or memory the space is as it was.
#[unsafe(no_mangle)]
pub extern "C" fn swarmbanner_replay(
    file: &[u8],
    trace: &[u8],
    memory: &mut [u8],
    run: &mut [usize],
    reply: &mut [usize],
) -> usize
    ensures { ReplayCall file.now trace.now memory.old run.old reply.old result memory.new run.new reply.new }
{
    if run.len() < RECORD_LEAST {
        return NO_ROOM;
    }
    if reply.len() < REPLY_LEAST {
        return NO_ROOM;
    }
    let mut record = RunRecord {
        states: [0u8; MOST_MACHINES as usize],
        heads: [0usize; MOST_QUEUES as usize],
        lengths: [0usize; MOST_QUEUES as usize],
    };
    let ended = replay(&mut record, file, trace, memory);
    put_run(run, ended, record);
    put_told(reply, tell_replay(ended))
}

// The pool and root for just the language of an expression. Final marks and arcs fill the front of the pool's space; after a refusal it is as
// it was.
#[unsafe(no_mangle)]
pub extern "C" fn swarmbanner_expression(text: &[u8], pool: &mut [u8], reply: &mut [usize]) -> usize
    ensures { ExpressionCall text.now pool.old reply.old result pool.new reply.new }
{
    if pool.len() < POOL_LEAST {
        return NO_ROOM;
    }
    if reply.len() < REPLY_LEAST {
        return NO_ROOM;
    }
    let mut drawn = Pool {
        count: 0,
        finals: [0u8; DiagramState::LIMIT],
        arcs: [0u8; POOL_ARCS],
    };
    let root = expression_into(text, &mut drawn);
    put_drawn(pool, root, &drawn);
    put_told(reply, tell_drawn(root, &drawn))
}
