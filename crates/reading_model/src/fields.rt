// Fields 1 to 3, the model: machines, queues and transitions.
ghost use Rattle.std.specs.Prelude.{◌≡◌, replicate};
ghost use Rattle.numbers.specs.Said.{said_with};
ghost use Rattle.tables.specs.Rows.{rows_length};
ghost use Rattle.reading_model.specs.Model.{read_model};
ghost use Rattle.reading_model.specs.Lent.{lent_model};

use crate::machines::read_machines;
use crate::queues::read_queues;
use crate::transitions::read_transitions;
use numbers::reader::Reader;
use numbers::refusal::Refusal;
use tables::tables::{Machines, Queues, ROWS};

// The model without its transitions' rows. Their table is lent: it is large, and would be copied at every return.
#[derive(Clone, Copy, Debug, PartialEq, Eq)]
pub struct ModelHead {
    pub machines: Machines,
    pub queues: Queues,
    pub transitions: u8,
}

// The rows of the transitions go into a table of 0.
#[tactic(auto, using(numbers::specs::Laws::Parts::handed_on_with), unfolding(crate::specs::Model::read_model))]
pub fn read_model(r: &mut Reader<'_>, rows: &mut [u8; ROWS]) -> Result<ModelHead, Refusal>
    requires { rows.old ≡ replicate rows_length 0 }
    ensures read { said_with (λ h. lent_model h.machines h.queues h.transitions rows.new) result r.new.place ≡ read_model r.old.bytes.now r.old.place }
    ensures bytes { r.new.bytes ≡ r.old.bytes }
{
    let (resumes, machines) = read_machines(r)?;
    let queues = read_queues(r, resumes)?;
    let transitions = read_transitions(r, &machines, &queues, rows)?;
    Ok(ModelHead {
        machines,
        queues,
        transitions,
    })
}
