//! An engine's next step, as it stood at one moment.

use core_state::{SharedInput, SharedPlan};
use heat_plan::{Item, Properties, RowNo};
use heat_value::Seq;

/// What an engine's turn would come to. `Idle`: nothing is there to do. `Lost`: the engine isn't
/// live.
#[derive(Debug, Drop)]
pub enum Look {
    Idle,
    Lost,
    Work(Work),
}

/// An engine's next step. `Begin`: that of a job at an update node, which has work. `Plain`: any
/// other, for which nothing is to be prepared.
#[derive(Debug, Drop)]
pub enum Work {
    Begin(BeginWork),
    Plain,
}

/// What a begin at an update node is prepared from: the plan and the item, what the node was given,
/// and the job's row with its properties and its key, which each lock raises.
#[derive(Debug)]
pub struct BeginWork {
    pub plan: SharedPlan,
    pub item: Item,
    pub inputs: Seq<SharedInput>,
    pub row: RowNo,
    pub props: Properties,
    pub key: u64,
}

impl Drop for BeginWork {
    fn drop(self) {
        let BeginWork {
            plan: _,
            item: _,
            inputs: _,
            row: _,
            props: _,
            key: _,
        } = self;
    }
}
