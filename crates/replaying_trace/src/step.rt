// One step on the run's record: the configuration is asked first, then the end of the trace, then the next number.
ghost use Rattle.replaying_trace.specs.Tables.{view_without_bad};
ghost use Rattle.replaying_trace.specs.Run.{state, Ready, Stepped};

use crate::progress::{Progress, Stop};
use numbers::number::wide;
use numbers::reader::Reader;
use replaying_step::runs::RunRecord;
use replaying_step::taking::Untaken;
use tables::view::TablesView;

impl Progress {
    // How far the replay has come after the step; where it stops record and memory stay.
    pub(crate) fn step(
        self,
        r: &mut RunRecord,
        t: &TablesView<'_>,
        trace: &[u8],
        memory: &mut [u8],
    ) -> Result<Progress, Stop>
        requires { Ready (view_without_bad t.now) trace.now (state r.old memory.old self) }
        ensures { Stepped t.now trace.now (state r.old memory.old self) result r.new memory.new }
    {
        r.locate(t, memory)?;
        if trace.len() <= self.at {
            return Err(Stop::End);
        }
        let mut number = Reader::new(trace, self.at);
        let i = number.below(wide(t.head.transitions))?;
        match r.take(t.rows, memory, wide(i)) {
            Ok(()) => Ok(Progress {
                at: number.place,
                steps: self.steps + 1,
            }),
            Err(Untaken::NotPossible) => Err(Stop::NotPossible(self.at)),
            Err(Untaken::NoRoom) => Err(Stop::NoRoom(self.at)),
        }
    }
}
