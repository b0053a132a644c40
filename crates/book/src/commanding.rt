//! Commands on stacks.
ghost use Rattle.std.specs.Prelude.{IfErr, IfOk};
ghost use Rattle.command_steps.specs.Answers.{OrMemory};
ghost use Rattle.book.specs.Commands.{Orders, RefusesOrder};
ghost use Rattle.book.specs.Keeping.{IsReady};
ghost use Rattle.book.specs.Makings.{DoesSo};
ghost use Rattle.book.specs.Quiet.{page};
ghost use Rattle.book.specs.WorkableOver.{IsWorkable};

use crate::history::History;
use crate::making::make_step;
use command_steps::{cancel, create, delete, update};
use core_state::{Made, State};
use heat_plan::{Plan, Refusal, StackName, TravNo};
use record_keeper::Keeper;
use std::alloc::Global;

/// A command on the stack of a name. A create and an update say whether a failure is rolled back.
#[derive(Debug, Drop)]
pub enum StackCommand {
    Create(StackName, Plan, bool),
    Update(StackName, Plan, bool),
    Delete(StackName),
    Cancel(StackName),
}

/// Makes a command's step, or refuses and changes nothing. Gives the traversal that was drawn.
pub(crate) fn make_order<K: Keeper>(
    alloc: Global,
    state: &mut State,
    entries: &mut History,
    keeper: &mut K,
    command: StackCommand,
) -> Result<TravNo, Refusal>
    requires workable { IsWorkable state.old.state }
    requires ready { IsReady (K.shown keeper.old) state.old.state }
    ensures { DoesSo (Orders state.old.state command) (RefusesOrder state.old.state command)
        state.old.state.next.trav
        (page state.old.state entries.old.items) (page state.new.state entries.new.items)
        (K.shown keeper.old) (K.shown keeper.new) (K.faults keeper.old) (K.faults keeper.new) result }
{
    let drawn = TravNo::new(state.next().trav.get());
    let made = order_of(alloc, state, command);
    match make_step(state, entries, keeper, made) {
        Ok(()) => match drawn {
            Some(trav) => Ok(trav),
            None => unreachable!(),
        },
        Err(refusal) => Err(refusal),
    }
}

// A command's step.
fn order_of(alloc: Global, s: &State, command: StackCommand) -> Result<Made, Refusal>
    ensures made { IfOk result (λ m. Orders s.now.state command m.changes m.entries) }
    ensures cause { IfErr result (OrMemory (RefusesOrder s.now.state command)) }
{
    match command {
        StackCommand::Create(name, plan, rollback) => create(alloc, s, &name, plan, rollback),
        StackCommand::Update(name, plan, rollback) => update(alloc, s, &name, plan, rollback),
        StackCommand::Delete(name) => delete(alloc, s, &name),
        StackCommand::Cancel(name) => cancel(alloc, s, &name),
    }
}
