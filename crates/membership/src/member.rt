// Membership: whether contents belong to a control state of a session file.
ghost use Rattle.std.specs.Prelude.{◌≡◌, ◌≤◌, take};
ghost use Rattle.tables.specs.Limits.{most_pool};
ghost use Rattle.tables.specs.Kinds.{reached_of};
ghost use Rattle.tables.specs.View.{viewed};
ghost use Rattle.theory_model.specs.Model.{queue_of};
ghost use Rattle.theory_model.specs.Diagram.{one_more, how_far};
ghost use Rattle.theory_tables.specs.Pool.{pool_of};
ghost use Rattle.theory_files.specs.Tables.{session_of};
ghost use Rattle.membership.specs.Said.{said_member};
ghost use Rattle.membership.specs.Member.{judge, ask, member_of};
ghost use Rattle.tables.specs.Valid.{QueuesValid, PoolValid};
ghost use Rattle.reading_file.specs.Valid.{Valid};

use crate::reply::{Member, MemberRefusal};
use numbers::number::{entry, wide};
use reading_file::reading::read_into;
use tables::kinds::{ControlState, DiagramState, Message, Reached};
use tables::lookup::{along, is_final, root_of};
use tables::tables::{POOL_ARCS, Queues, ROWS};
use tables::view::TablesView;

// The queue that a message belongs to.
fn queue_of(q: &Queues, m: Message) -> u8
    requires { QueuesValid q.now }
    ensures { result ≡ queue_of (take q.now.count q.now.messages) m.0 }
{
    let mut rest = m.0;
    for i in 0..q.count {
        let own = entry(&q.messages, usize::from(i));
        if rest < own {
            return i;
        }
        rest -= own;
    }
    q.count
}

// One message more, if it has led somewhere.
fn followed(at: Reached) -> usize
    ensures { result ≡ one_more (reached_of at.0) 0 }
{
    usize::from(!at.is_nowhere())
}

// Every message is held to its number and its queue, also where the diagram has nowhere to go.
fn judge(t: &TablesView<'_>, start: Reached, contents: &[u8]) -> Result<Member, MemberRefusal>
    requires queues_valid { QueuesValid t.now.head.queues }
    requires pool_valid { PoolValid t.now.head.queues.sum (viewed t.now).pool }
    requires start_le_most_pool { start.0 ≤ most_pool }
    ensures { said_member result ≡ judge (take t.now.head.queues.count t.now.head.queues.messages) (pool_of (viewed t.now).pool) (how_far (pool_of (viewed t.now).pool) (reached_of start.0) contents.now) 0 0 (reached_of start.0) contents.now }
{
    let q = &t.head.queues;
    let mut at = start;
    let mut queue: u8 = 0;
    let mut far: usize = 0;
    for (i, &raw) in contents.iter().enumerate() {
        if q.sum <= raw {
            return Err(MemberRefusal::NoMessage(i));
        }
        let m = Message::new(wide(raw));
        let own = queue_of(q, m);
        if own < queue {
            return Err(MemberRefusal::EarlierQueue(i));
        }
        at = along(t.arcs, at, m);
        far += followed(at);
        queue = own;
    }
    if is_final(t.finals, at) {
        Ok(Member::Yes(far))
    } else {
        Ok(Member::No(far))
    }
}

// The question put to the tables of a file that was read.
fn ask(t: &TablesView<'_>, control: usize, contents: &[u8]) -> Result<Member, MemberRefusal>
    requires { Valid (viewed t.now) }
    ensures { said_member result ≡ ask (session_of (viewed t.now)) control contents.now }
{
    if t.head.machines.product <= control {
        return Err(MemberRefusal::NoControl);
    }
    let start = root_of(t.roots, ControlState::new(control));
    judge(t, start, contents)
}

// Do these contents belong to this control state of the file? Its tables are looked at where they were read.
pub fn member(file: &[u8], control: usize, contents: &[u8]) -> Result<Member, MemberRefusal>
    ensures { said_member result ≡ member_of file.now control contents.now }
{
    let mut rows = [0u8; ROWS];
    let mut finals = [0u8; DiagramState::LIMIT];
    let mut arcs = [0u8; POOL_ARCS];
    let read = read_into(file, &mut rows, &mut finals, &mut arcs)?;
    let tables = TablesView {
        head: read.head,
        rows: &rows,
        finals: &finals,
        arcs: &arcs,
        roots: &read.sets.map.roots,
        entries: &read.sets.bad.rows,
    };
    ask(&tables, control, contents)
}
