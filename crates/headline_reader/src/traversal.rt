//! A stack's newest traversal: that of its last command.
ghost use Rattle.std.specs.Prelude.{◌≡◌, ℕ, Bool, IfOk};
ghost use Rattle.heat_plan.specs.declared.token.Token.{Token};
ghost use Rattle.step_relation.specs.Opening.{empty_opening};
ghost use Rattle.step_relation.specs.Newest.{newest, newest_by};

use core_state::{Entry, What};
use heat_plan::{Act, Plan, StackName, TravNo};
use heat_value::copy_option;
use std::alloc::AllocError;
use std::marker::Model;

/// A traversal's number, act and plan; a plan of None means a delete.
#[derive(Debug, Drop)]
pub struct Latest {
    pub trav: TravNo,
    pub act: Act,
    pub plan: Option<Plan>,
}

impl Model for Latest {
    ghost use Rattle.std.specs.Coded.{codes};
    ghost use Rattle.heat_value.specs.Code.{data_code, members_code};
    ghost use Rattle.step_relation.specs.Newest.{Latest as latest_type};

    ghost Value = { latest_type };

    ghost coded = { Prim.hlevel (codes, data_code, members_code) };

    ghost view = { λ l. record { trav = l.trav; act = l.act; plan = l.plan } };
}

impl Latest {
    /// The traversal's number.
    pub fn trav(&self) -> TravNo
        ensures { result ≡ self.now.trav }
    {
        self.trav
    }
}

/// The newest traversal of a stack; none where it had no command.
#[tactic(auto, unfolding(heat_plan::specs::Tables::at))]
pub fn newest(entries: &[Entry], stack: &StackName) -> Result<Option<Latest>, AllocError>
    ensures { (engines : ℕ) (leaving : Token → Bool)
        → IfOk result (λ l. l ≡ newest (empty_opening engines leaving) entries.now stack.now) }
{
    let mut latest = None;
    for entry in entries {
        latest = newest_by(stack, latest, &entry.what)?;
    }
    Ok(latest)
}

// A command of the stack is the newest from then on.
fn newest_by(
    stack: &StackName,
    before: Option<Latest>,
    what: &What,
) -> Result<Option<Latest>, AllocError>
    ensures { IfOk result (λ l. l ≡ newest_by stack.now before what.now) }
{
    match what {
        What::Command {
            stack: commanded,
            trav,
            act,
            plan,
            ..
        } if commanded == stack => Ok(Some(Latest {
            trav: *trav,
            act: *act,
            plan: copy_option(plan)?,
        })),
        _ => Ok(before),
    }
}
