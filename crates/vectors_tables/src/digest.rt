// A digest of all entries of the tables, used or not.
ghost use Rattle.std.specs.Prelude.{◌<◌};
ghost use Rattle.streams.specs.Lent.{modulus};

use streams::lent::RunningDigest;
use tables::tables::{Machines, Queues, Tables};

fn machines(digest: &mut RunningDigest, m: &Machines) {
    digest.number(m.count as u16);
    digest.bytes(&m.states);
    digest.bytes(&m.starts);
    digest.number((m.product % 65536) as u16);
}

fn queues(digest: &mut RunningDigest, q: &Queues) {
    digest.number(q.count as u16);
    digest.bytes(&q.messages);
    digest.bytes(&q.lengths);
    digest.bytes(&q.contents);
    digest.number(q.sum as u16);
}

pub fn digest(t: &Tables) -> u64
    ensures { result < modulus }
{
    let mut digest = RunningDigest::new();
    machines(&mut digest, &t.machines);
    queues(&mut digest, &t.queues);
    digest.number(t.transitions.count as u16);
    digest.bytes(&t.transitions.rows);
    digest.number(t.pool.count as u16);
    digest.bytes(&t.pool.finals);
    digest.bytes(&t.pool.arcs);
    digest.bytes(&t.map.roots);
    digest.number(t.bad.count as u16);
    digest.bytes(&t.bad.rows);
    digest.sum()
}
