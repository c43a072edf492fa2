// Where a pair leads: by a message that both its places read, and by the step itself. The answer is the number of the pair that a letter
// leads to, or none where it leads nowhere.
ghost use Rattle.std.proofs.Math.Option.{some};
ghost use Rattle.std.specs.Prelude.{◌<◌};
ghost use Rattle.tables.specs.Limits.{most_messages};
ghost use Rattle.tables.specs.Kinds.{reached_of};
ghost use Rattle.tables.specs.Lookup.{ArcsSmall};
ghost use Rattle.theory_model.specs.Judge.{pair};
ghost use Rattle.checking_pairs.specs.Pairs.{side_of, NodeFits};
ghost use Rattle.checking_pairs.specs.Over.{read_over, jump_over};
ghost use Rattle.checking_pairs.specs.Leads.{LeadsTo};

use crate::over::StepOver;
use crate::pairs::{AFTER, Node};
use following::messages::follow_word;
use tables::kinds::{Message, Reached};
use tables::lookup::{along, arc_at};

// The pair that a letter leads to. For a bad entry it is dropped where the target is nowhere; for a step that is the pair that
// fails.
fn pair_to(entry: bool, y: Node) -> Option<usize>
    requires { NodeFits y }
    ensures { LeadsTo result (pair entry (side_of y.side) (some y.source.0) (reached_of y.target.0)) }
{
    if entry && y.target.is_nowhere() {
        return None;
    }
    Some(y.code())
}

// Both places read a message. The pair is dropped where the source has nowhere to go.
pub fn read(arcs: &[u8], entry: bool, x: Node, m: Message) -> Option<usize>
    requires arcs_small { ArcsSmall arcs.now }
    requires node_fits { NodeFits x }
    requires m_lt_most_messages { m.0 < most_messages }
    ensures { LeadsTo result (read_over arcs.now entry x.side x.source.0 (reached_of x.target.0) m.0) }
{
    let source = arc_at(arcs, x.source, m)?;
    let target = along(arcs, x.target, m);
    let y = Node {
        side: x.side,
        source,
        target,
    };
    pair_to(entry, y)
}

// The step: the source reads what is taken out, the target what is put in.
pub fn step(t: &StepOver<'_>, x: Node) -> Option<usize>
    requires { NodeFits x }
    ensures { LeadsTo result (jump_over t.now.arcs.now t.now.rows.now t.now.walk x.source.0 (reached_of x.target.0)) }
{
    let w = t.walk;
    let source = follow_word(t.arcs, Reached::at(x.source), t.rows, w.word, w.out);
    if source.is_nowhere() {
        return None;
    }
    let target = follow_word(t.arcs, x.target, t.rows, w.word, w.into);
    let y = Node {
        side: AFTER,
        source: source.state(),
        target,
    };
    pair_to(w.entry, y)
}
