//! Lines that show something of a stack.
ghost use Rattle.std.specs.Prelude.{◌≡◌, option_map};
ghost use Rattle.core_state.specs.State.{stack_at};
ghost use Rattle.core_state.specs.declared.stack.Stack.{Stack as stack_type};
ghost use Rattle.driver.specs.Quiet.{page};
ghost use Rattle.converge_call.specs.Carrying.{Carries};
ghost use Rattle.converge_call.specs.Halting.{HaltsBehind, halt_broken};
ghost use Rattle.converge_call.specs.Notes.{IsUndone, HasDone};
ghost use Rattle.converge_call.specs.Shows.{ShowDoes, OutputsDoes};

use crate::exit::Exit;
use crate::notes::{note, refuse};
use core_state::{ShowWhat, What};
use driver::Book;
use heat_plan::{StackName, Status};
use provider::Provider;
use record_keeper::Keeper;
use std::alloc::Global;

/// Shows this of a stack, or notes that there is none of the name.
pub fn show<K: Keeper, P: Provider>(
    alloc: Global,
    book: &mut Book<K, P>,
    number: u64,
    what: ShowWhat,
    stack: StackName,
) -> Result<(), Exit>
    ensures done { HasDone (ShowDoes number what stack) IsUndone
        (page book.old.state book.old.entries) (page book.new.state book.new.entries) result }
    ensures carries { Carries K.shown P.cloud book.old book.new }
    ensures halt { HaltsBehind halt_broken book.old.halt book.new.halt result }
{
    if book.state().stack(&stack).is_none() {
        return refuse(alloc, book, number, "E11");
    }
    note(book, What::Show { what, stack })
}

/// Shows the outputs of a stack that is complete, or notes why not.
pub fn outputs<K: Keeper, P: Provider>(
    alloc: Global,
    book: &mut Book<K, P>,
    number: u64,
    stack: StackName,
) -> Result<(), Exit>
    ensures done { HasDone (OutputsDoes number stack) IsUndone
        (page book.old.state book.old.entries) (page book.new.state book.new.entries) result }
    ensures carries { Carries K.shown P.cloud book.old book.new }
    ensures halt { HaltsBehind halt_broken book.old.halt book.new.halt result }
{
    match status_of(book, &stack) {
        Some(Status::Complete) => {
            let what = ShowWhat::Outputs;
            note(book, What::Show { what, stack })
        }
        Some(Status::InProgress) => refuse(alloc, book, number, "E18"),
        Some(Status::Failed) => refuse(alloc, book, number, "E18"),
        None => refuse(alloc, book, number, "E11"),
    }
}

// The status of the stack of this name.
fn status_of<K: Keeper, P: Provider>(book: &Book<K, P>, stack: &StackName) -> Option<Status>
    ensures { result ≡ option_map (λ (st : stack_type). st.status) (stack_at book.now.state.stacks stack.now) }
{
    match book.state().stack(stack) {
        Some(stack) => Some(stack.status),
        None => None,
    }
}
