//! What one line of the script does.
ghost use Rattle.std.specs.Prelude.{◌≡◌, Some, None, OnOk, map};
ghost use Rattle.driver.specs.Kept.{opening_of};
ghost use Rattle.driver.specs.Quiet.{page};
ghost use Rattle.converge_call.specs.Carrying.{Carries};
ghost use Rattle.converge_call.specs.Halting.{HaltsBehind, halt_broken, halt_for};
ghost use Rattle.converge_call.specs.Notes.{HasDone, IsUndone};
ghost use Rattle.converge_call.specs.Lines.{AskedDoes, AskedBreaks, LineDoes, LineBreaks, IsMisreadFor};
ghost use Rattle.converge_call.specs.Stocks.{stock, CatalogAsked, CatalogBehind};

use crate::commands::{create, order, start, stop, update};
use crate::exit::Exit;
use crate::means::Means;
use crate::notes::refuse_at;
use crate::restarts::restart;
use crate::runs::{run, turn};
use crate::shows::{outputs, show};
use crate::types::types;
use core_state::ShowWhat;
use driver::{Book, StackCommand};
use hot_catalog::Catalog;
use provider::Provider;
use record_keeper::Keeper;
use script_lines::{Line, Misread};
use std::alloc::Global;

/// Does what the line of this number says; the status is why it couldn't.
pub fn do_line<K: Keeper, P: Provider>(
    by: &Means<'_>,
    catalog: &mut Catalog,
    book: &mut Book<K, P>,
    number: u64,
    line: &[u8],
) -> Result<(), Exit>
    requires unhalted { book.old.halt ≡ None }
    ensures done { HasDone (LineDoes (opening_of P.cloud book.old) book.old.entries
        (stock (map (λ t. t.test) by.now.registry.now.customs) catalog.old) number line.now)
        (LineBreaks (opening_of P.cloud book.old) book.old.entries (K.shown book.old.origin.keeper).recalls
        line.now (P.cloud book.new.cloud) book.new.halt)
        (page book.old.state book.old.entries) (page book.new.state book.new.entries) result }
    ensures kinds { OnOk result (CatalogBehind line.now catalog.old catalog.new) }
    ensures carries { Carries K.shown P.cloud book.old book.new }
    ensures unhalted { OnOk result (book.new.halt ≡ None) }
{
    match Line::read(by.alloc, line) {
        Ok(asked) => do_asked(by, catalog, book, number, asked),
        Err(misread) => refuse_line(by.alloc, book, number, &misread),
    }
}

// Does what a line asks for.
fn do_asked<K: Keeper, P: Provider>(
    by: &Means<'_>,
    catalog: &mut Catalog,
    book: &mut Book<K, P>,
    number: u64,
    asked: Line,
) -> Result<(), Exit>
    requires unhalted { book.old.halt ≡ None }
    ensures done { HasDone (AskedDoes (opening_of P.cloud book.old) book.old.entries
        (stock (map (λ t. t.test) by.now.registry.now.customs) catalog.old) number asked)
        (AskedBreaks (opening_of P.cloud book.old) book.old.entries (K.shown book.old.origin.keeper).recalls
        asked (P.cloud book.new.cloud))
        (page book.old.state book.old.entries) (page book.new.state book.new.entries) result }
    ensures kinds { OnOk result (CatalogAsked asked catalog.old catalog.new) }
    ensures carries { Carries K.shown P.cloud book.old book.new }
    ensures halt { HaltsBehind (halt_for asked) book.old.halt book.new.halt result }
{
    let alloc = by.alloc;
    match asked {
        Line::Blank => Ok(()),
        Line::Create(name, body) => create(by, catalog, book, number, name, &body),
        Line::Update(name, body) => update(by, catalog, book, number, name, &body),
        Line::Delete(name) => order(alloc, book, number, StackCommand::Delete(name)),
        Line::Cancel(name) => order(alloc, book, number, StackCommand::Cancel(name)),
        Line::Status(stack) => show(alloc, book, number, ShowWhat::Status, stack),
        Line::Resources(stack) => show(alloc, book, number, ShowWhat::Resources, stack),
        Line::Outputs(stack) => outputs(alloc, book, number, stack),
        Line::Types(given) => types(alloc, catalog, book, number, &given),
        Line::Run(most) => run(by, book, number, most),
        Line::Turn(engine) => turn(by, book, number, engine),
        Line::Stop(engine) => stop(alloc, book, number, engine),
        Line::Start => start(alloc, book, number),
        Line::Restart => restart(book),
    }
}

// Notes what is wrong with a line.
fn refuse_line<K: Keeper, P: Provider>(
    alloc: Global,
    book: &mut Book<K, P>,
    number: u64,
    misread: &Misread,
) -> Result<(), Exit>
    ensures done { HasDone (IsMisreadFor number misread.now) IsUndone
        (page book.old.state book.old.entries) (page book.new.state book.new.entries) result }
    ensures carries { Carries K.shown P.cloud book.old book.new }
    ensures halt { HaltsBehind halt_broken book.old.halt book.new.halt result }
{
    match misread.code() {
        Some(code) => refuse_at(alloc, book, number, code, misread.path()),
        None => Err(Exit::Memory),
    }
}
