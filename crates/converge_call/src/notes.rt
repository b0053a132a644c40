//! What a line notes: a refusal, what it shows, or how its turns ended.
ghost use Rattle.std.specs.Prelude.{◌≡◌, IfOk, option_map};
ghost use Rattle.step_relation.specs.Steps.{IsNote};
ghost use Rattle.driver.specs.Quiet.{page};
ghost use Rattle.converge_call.specs.Carrying.{Carries};
ghost use Rattle.converge_call.specs.Halting.{HaltsBehind, halt_broken};
ghost use Rattle.converge_call.specs.Notes.{refused, refused_at, Notes, IsUndone, HasDone};

use crate::exit::Exit;
use core_state::What;
use driver::Book;
use heat_value::{Path, Text, TryCopy};
use provider::Provider;
use record_keeper::Keeper;
use std::alloc::{AllocError, Global};

/// Notes that the line of this number was refused with a code.
pub fn refuse<K: Keeper, P: Provider>(
    alloc: Global,
    book: &mut Book<K, P>,
    line: u64,
    code: &str,
) -> Result<(), Exit>
    ensures done { HasDone (Notes (refused line code.now)) IsUndone
        (page book.old.state book.old.entries) (page book.new.state book.new.entries) result }
    ensures only { book.new ≡ record book.old { entries = book.new.entries } }
    ensures carries { Carries K.shown P.cloud book.old book.new }
    ensures halt { HaltsBehind halt_broken book.old.halt book.new.halt result }
{
    refuse_at(alloc, book, line, code, None)
}

/// Notes it with the place that the code is for, where there is one.
pub fn refuse_at<K: Keeper, P: Provider>(
    alloc: Global,
    book: &mut Book<K, P>,
    line: u64,
    code: &str,
    path: Option<&Path>,
) -> Result<(), Exit>
    ensures done { HasDone (Notes (refused_at line code.now (option_map (λ p. p.now) path.entry))) IsUndone
        (page book.old.state book.old.entries) (page book.new.state book.new.entries) result }
    ensures only { book.new ≡ record book.old { entries = book.new.entries } }
    ensures carries { Carries K.shown P.cloud book.old book.new }
    ensures halt { HaltsBehind halt_broken book.old.halt book.new.halt result }
{
    let Ok(path) = copied(path) else {
        return Err(Exit::Memory);
    };
    let Ok(code) = Text::from_str(alloc, code) else {
        return Err(Exit::Memory);
    };
    note(book, What::Note { line, code, path })
}

// A copy of the place.
fn copied(path: Option<&Path>) -> Result<Option<Path>, AllocError>
    ensures { IfOk result (λ p. p ≡ option_map (λ p. p.now) path.entry) }
{
    match path {
        Some(path) => Ok(Some(path.copy()?)),
        None => Ok(None),
    }
}

/// Adds what a line notes.
pub fn note<K: Keeper, P: Provider>(book: &mut Book<K, P>, what: What) -> Result<(), Exit>
    requires { IsNote what }
    ensures done { HasDone (Notes what) IsUndone
        (page book.old.state book.old.entries) (page book.new.state book.new.entries) result }
    ensures only { book.new ≡ record book.old { entries = book.new.entries } }
    ensures carries { Carries K.shown P.cloud book.old book.new }
    ensures halt { HaltsBehind halt_broken book.old.halt book.new.halt result }
{
    match book.note(what) {
        Ok(()) => Ok(()),
        Err(_) => Err(Exit::Memory),
    }
}
