//! The line that restarts.
ghost use Rattle.std.specs.Prelude.{◌≡◌, ◌≤◌, None, length};
ghost use Rattle.step_relation.specs.Steps.{engine_limit};
ghost use Rattle.driver.specs.Kept.{opening_of};
ghost use Rattle.driver.specs.Quiet.{page};
ghost use Rattle.converge_call.specs.Carrying.{Carries};
ghost use Rattle.converge_call.specs.Halting.{HaltsBehind, halt_refused};
ghost use Rattle.converge_call.specs.Notes.{HasDone};
ghost use Rattle.converge_call.specs.Restarts.{RestartDoes, RestartBreaks};

use crate::exit::{Exit, exit_for};
use driver::Book;
use provider::Provider;
use record_keeper::Keeper;

/// Stops all engines, and enlists as many as were live at the opening; a restart that is refused halts
/// the book.
pub fn restart<K: Keeper, P: Provider>(book: &mut Book<K, P>) -> Result<(), Exit>
    requires unhalted { book.old.halt ≡ None }
    ensures done { HasDone (RestartDoes (opening_of P.cloud book.old) book.old.entries)
        (RestartBreaks (opening_of P.cloud book.old) book.old.entries
        (K.shown book.old.origin.keeper).recalls (P.cloud book.new.cloud))
        (page book.old.state book.old.entries) (page book.new.state book.new.entries) result }
    ensures carries { Carries K.shown P.cloud book.old book.new }
    ensures halt { HaltsBehind halt_refused book.old.halt book.new.halt result }
{
    book.promises();
    let workers = first_workers(book);
    match book.restart(workers) {
        Ok(()) => Ok(()),
        Err(why) => Err(exit_for(why)),
    }
}

// How many engines were live at the opening.
fn first_workers<K: Keeper, P: Provider>(book: &Book<K, P>) -> u8
    ensures count { result ≡ length book.now.opening.live }
    ensures some { 1 ≤ result }
    ensures few { result ≤ engine_limit }
{
    book.promises();
    match u8::try_from(book.opening().live().len()) {
        Ok(count) => count,
        Err(_) => unreachable!(),
    }
}
