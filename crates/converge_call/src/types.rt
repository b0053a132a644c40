//! Lines that give kinds.
ghost use Rattle.std.specs.Prelude.{◌≡◌, List, OnOk};
ghost use Rattle.heat_value.specs.Meaning.{data_of};
ghost use Rattle.type_catalog.specs.declared.custom.NamedTest.{NamedTest as test_type};
ghost use Rattle.driver.specs.Quiet.{page};
ghost use Rattle.converge_call.specs.Carrying.{Carries};
ghost use Rattle.converge_call.specs.Halting.{HaltsBehind, halt_broken};
ghost use Rattle.converge_call.specs.Notes.{IsUndone, HasDone};
ghost use Rattle.converge_call.specs.Commands.{TypesDoes};
ghost use Rattle.converge_call.specs.Stocks.{stock, TakesKinds};

use crate::exit::Exit;
use crate::notes::refuse_at;
use driver::Book;
use heat_value::Value;
use hot_catalog::{Catalog, CatalogFault};
use provider::Provider;
use record_keeper::Keeper;
use std::alloc::Global;

/// Takes the kinds of a catalogue, or notes why not.
pub fn types<K: Keeper, P: Provider>(
    alloc: Global,
    catalog: &mut Catalog,
    book: &mut Book<K, P>,
    number: u64,
    given: &Value,
) -> Result<(), Exit>
    ensures done { (tests : List test_type) → HasDone
        (TypesDoes (stock tests catalog.old) number (data_of given.now)) IsUndone
        (page book.old.state book.old.entries) (page book.new.state book.new.entries) result }
    ensures kinds { OnOk result (TakesKinds (data_of given.now) catalog.old catalog.new) }
    ensures carries { Carries K.shown P.cloud book.old book.new }
    ensures halt { HaltsBehind halt_broken book.old.halt book.new.halt result }
{
    match catalog.read(alloc, given) {
        Ok(()) => Ok(()),
        Err(CatalogFault::L09(path)) => refuse_at(alloc, book, number, "L09", Some(&path)),
        Err(CatalogFault::Memory) => Err(Exit::Memory),
    }
}
