//! Lines that make turns of engines.
ghost use Rattle.std.specs.Prelude.{◌≡◌, ◌≢◌, ◌<◌, ◌↔◌, [], IsTrue};
ghost use Rattle.core_state.specs.declared.entry.What.TheVariants as what;
ghost use Rattle.driver.specs.Kept.{opening_of};
ghost use Rattle.driver.specs.Quiet.{page};
ghost use Rattle.converge_call.specs.Carrying.{Carries};
ghost use Rattle.converge_call.specs.Halting.{HaltsBehind, halt_broken};
ghost use Rattle.converge_call.specs.Notes.{Notes, IsUndone, HasDone};
ghost use Rattle.converge_call.specs.Runs.{IsLimit, RunDoes, RunBreaks, RunEnds, RunStops, TurnDoes, TurnBreaks};

use crate::exit::Exit;
use crate::means::Means;
use crate::notes::{note, refuse};
use core_state::What;
use driver::{Book, Ran, Turn, turns, work};
use heat_plan::EngineNo;
use provider::Provider;
use record_keeper::Keeper;
use type_catalog::Registry;

/// Makes as many turns as are asked for, or as there is work, until the book is idle; and notes how
/// many.
pub fn run<K: Keeper, P: Provider>(
    by: &Means<'_>,
    book: &mut Book<K, P>,
    number: u64,
    asked: Option<u64>,
) -> Result<(), Exit>
    ensures done { HasDone (RunDoes (opening_of P.cloud book.old) book.old.entries number asked) (RunBreaks asked)
        (page book.old.state book.old.entries) (page book.new.state book.new.entries) result }
    ensures carries { Carries K.shown P.cloud book.old book.new }
    ensures halt { HaltsBehind halt_broken book.old.halt book.new.halt result }
{
    if book.live().is_empty() {
        return refuse(by.alloc, book, number, "E16");
    }
    let most = limit(book, asked);
    run_at_most(book, most, by.registry)
}

// How many turns there may be.
fn limit<K: Keeper, P: Provider>(book: &Book<K, P>, asked: Option<u64>) -> u128
    ensures { IsLimit book.now.state asked result }
{
    match asked {
        Some(asked) => u128::from(asked),
        None => work(book),
    }
}

// Makes so many turns at most, and notes how they ended.
fn run_at_most<K: Keeper, P: Provider>(
    book: &mut Book<K, P>,
    most: u128,
    registry: &Registry,
) -> Result<(), Exit>
    requires live { book.old.state.live ≢ [] }
    ensures done { HasDone (RunEnds (opening_of P.cloud book.old) book.old.entries most) (RunStops most)
        (page book.old.state book.old.entries) (page book.new.state book.new.entries) result }
    ensures carries { Carries K.shown P.cloud book.old book.new }
    ensures halt { HaltsBehind halt_broken book.old.halt book.new.halt result }
{
    book.promises();
    match turns(book, most, registry) {
        Ran::Idle(turns) => ran(book, true, turns),
        Ran::Tired(turns) => ran(book, false, turns),
        Ran::Worn => Err(Exit::Worn),
        Ran::DiskFault => Err(Exit::DiskFault),
        Ran::Memory => Err(Exit::Memory),
    }
}

// Notes how a run ended.
fn ran<K: Keeper, P: Provider>(book: &mut Book<K, P>, idle: bool, turns: u128) -> Result<(), Exit>
    ensures done { HasDone (Notes (what.Ran idle turns)) IsUndone
        (page book.old.state book.old.entries) (page book.new.state book.new.entries) result }
    ensures carries { Carries K.shown P.cloud book.old book.new }
    ensures halt { HaltsBehind halt_broken book.old.halt book.new.halt result }
{
    note(book, What::Ran { idle, turns })
}

/// Makes a turn of an engine, and notes where it made no step.
pub fn turn<K: Keeper, P: Provider>(
    by: &Means<'_>,
    book: &mut Book<K, P>,
    number: u64,
    engine: EngineNo,
) -> Result<(), Exit>
    ensures done { HasDone (TurnDoes number engine) (TurnBreaks engine)
        (page book.old.state book.old.entries) (page book.new.state book.new.entries) result }
    ensures carries { Carries K.shown P.cloud book.old book.new }
    ensures halt { HaltsBehind halt_broken book.old.halt book.new.halt result }
{
    if !was_drawn(book, engine) {
        return refuse(by.alloc, book, number, "E16");
    }
    book.promises();
    match book.turn(engine, by.registry) {
        Turn::Stepped => Ok(()),
        Turn::Idle => turned(book, engine, false),
        Turn::Lost => turned(book, engine, true),
        Turn::Worn => Err(Exit::Worn),
        Turn::DiskFault => Err(Exit::DiskFault),
        Turn::Memory => Err(Exit::Memory),
    }
}

// Whether this number was drawn for an engine.
fn was_drawn<K: Keeper, P: Provider>(book: &Book<K, P>, engine: EngineNo) -> bool
    ensures { IsTrue result ↔ (engine < book.now.state.next.engine) }
{
    engine.get() < book.state().next().engine.get()
}

// Notes why an engine made no step.
fn turned<K: Keeper, P: Provider>(
    book: &mut Book<K, P>,
    engine: EngineNo,
    lost: bool,
) -> Result<(), Exit>
    ensures done { HasDone (Notes (what.Turned engine lost)) IsUndone
        (page book.old.state book.old.entries) (page book.new.state book.new.entries) result }
    ensures carries { Carries K.shown P.cloud book.old book.new }
    ensures halt { HaltsBehind halt_broken book.old.halt book.new.halt result }
{
    note(book, What::Turned { engine, lost })
}
