// The steps, by control state and within it by transition number.
ghost use Rattle.std.specs.Prelude.{◌<◌, ◌≤◌};
ghost use Rattle.reading_file.specs.Session.{tables_in};
ghost use Rattle.checking_items.specs.Promises.{memory, Ready, SameLent};
ghost use Rattle.checking_session.specs.Judges.{ample_pairs, pairs_before};
ghost use Rattle.checking_session.specs.Promises.{TurnJudged, ControlJudged, StepsJudged};

use checking_items::far::far_of;
use checking_items::item::judge_step;
use checking_items::scratch::Scratch;
use checking_walk::judge::Shown;
use controls::moves::is_at;
use numbers::number::wide;
use reading_file::session::Session;
use tables::kinds::ControlState;
use tables::tables::ROW;
use verdicts::verdict::Failing;

// One transition at a control state, after items with so many pairs: its step, if the machine is in the from-state.
pub(crate) fn judge_turn(
    s: &Session<'_>,
    c: ControlState,
    i: usize,
    pairs: usize,
    m: &mut Scratch<'_>,
) -> Result<usize, Failing>
    requires within { (c.0 < s.now.tables.head.machines.product) × (i < s.now.tables.head.transitions) }
    requires pairs_le_ample_pairs { pairs ≤ ample_pairs }
    requires ready { Ready (memory m.old) }
    ensures judged { TurnJudged (tables_in s.now) c.0 i pairs m.old.contents.now result (memory m.new) }
    ensures same { SameLent m.old m.new }
{
    let t = &s.tables;
    let row = i * ROW;
    if !is_at(t.head.machines, t.rows, row, c) {
        return Ok(pairs);
    }
    match judge_step(s, c, row, m) {
        Ok(more) => Ok(pairs + more),
        Err(Shown(shown)) => {
            let contents = &mut *m.contents;
            let far = far_of(s, c, row, contents, shown);
            Err(Failing::Leaves(c, i, shown, far))
        }
    }
}

// The steps of one control state from transition `first` on.
fn judge_control(
    s: &Session<'_>,
    c: ControlState,
    first: usize,
    pairs: usize,
    m: &mut Scratch<'_>,
) -> Result<usize, Failing>
    requires within { (c.0 < s.now.tables.head.machines.product) × (first ≤ s.now.tables.head.transitions) }
    requires pairs_bound { pairs ≤ pairs_before c.0 first }
    requires ready { Ready (memory m.old) }
    ensures judged { ControlJudged (tables_in s.now) c.0 first pairs m.old.contents.now result (memory m.new) }
    ensures same { SameLent m.old m.new }
{
    let mut sum = pairs;
    for i in first..wide(s.tables.head.transitions) {
        sum = judge_turn(s, c, i, sum, m)?;
    }
    Ok(sum)
}

// The steps from transition `first` of control state `from` on.
pub(crate) fn judge_steps(
    s: &Session<'_>,
    from: usize,
    first: usize,
    pairs: usize,
    m: &mut Scratch<'_>,
) -> Result<usize, Failing>
    requires within { (from < s.now.tables.head.machines.product) × (first ≤ s.now.tables.head.transitions) }
    requires pairs_bound { pairs ≤ pairs_before from first }
    requires ready { Ready (memory m.old) }
    ensures judged { StepsJudged (tables_in s.now) from first pairs m.old.contents.now result (memory m.new) }
    ensures same { SameLent m.old m.new }
{
    let mut sum = pairs;
    let mut i = first;
    for c in from..s.tables.head.machines.product {
        let control = ControlState::new(c);
        sum = judge_control(s, control, i, sum, m)?;
        i = 0;
    }
    Ok(sum)
}
