//! Reads a script line by line, does each, and writes what it added to the text.
ghost use Rattle.std.specs.Prelude.{◌≡◌, ◌≤◌, [], false, None, OnOk, take, length, map, IsErrOf};
ghost use Rattle.heat_value.specs.Counts.{Rose};
ghost use Rattle.report.specs.Seen.{seen_of};
ghost use Rattle.report.specs.Text.{seen_after, text_after};
ghost use Rattle.driver.specs.Kept.{opening_of};
ghost use Rattle.driver.specs.Quiet.{page};
ghost use Rattle.converge_call.specs.Carrying.{Carries};
ghost use Rattle.converge_call.specs.Drives.{line_end, streams, Drove, LineAnswered, Written};
ghost use Rattle.converge_call.specs.Stocks.{stock, first_stock, CatalogBehind};

use crate::exit::Exit;
use crate::line::do_line;
use crate::means::Means;
use crate::shortening::shorten;
use driver::Book;
use heat_io::{LineReader, Next, PutFault, SCRIPT_LIMIT, Sink, Source, put_all};
use hot_catalog::Catalog;
use provider::Provider;
use record_keeper::Keeper;
use report::Reporter;
use std::alloc::Global;
use type_catalog::Registry;

/// Drives the book by the lines of the source. No script has more lines than bytes, and one more read
/// finds its end. Behind the opening, and behind each line's text, the keeper is compacted where it is
/// long.
pub fn drive<S: Source, W: Sink, K: Keeper, P: Provider>(
    alloc: Global,
    source: &mut S,
    sink: &mut W,
    book: &mut Book<K, P>,
    registry: &Registry,
) -> Exit
    requires fresh { book.old.entries ≡ [] }
    requires opened { book.old.state ≡ book.old.opening }
    requires unhalted { book.old.halt ≡ None }
    ensures drove { Drove (opening_of P.cloud book.old)
        (first_stock (map (λ j. j.kind) registry.now.judges) (map (λ t. t.test) registry.now.customs))
        (K.shown book.old.origin.keeper).recalls
        (streams (S.left source.old) (W.holds sink.old))
        (streams (S.left source.new) (W.holds sink.new)) book.new.state book.new.entries
        (line_end (P.cloud book.new.cloud) book.new.halt) result }
    ensures read { result ≡ Exit.ReadFault → Rose (S.faults source.old) (S.faults source.new) }
    ensures write { result ≡ Exit.WriteFault → Rose (W.faults sink.old) (W.faults sink.new) }
    ensures short { result ≡ Exit.Done → (K.shown book.new.keeper).is_long ≡ false }
    ensures carries { Carries K.shown P.cloud book.old book.new }
{
    let Ok(mut reporter) = Reporter::new(alloc, book.opening()) else {
        return Exit::Memory;
    };
    let Ok(mut catalog) = Catalog::new(alloc, registry) else {
        return Exit::Memory;
    };
    match shorten(book) {
        Ok(()) => {}
        Err(exit) => return exit,
    }
    let by = Means { alloc, registry };
    let mut reader = LineReader::new(alloc);
    for number in 1..=SCRIPT_LIMIT + 1 {
        let line = match reader.next(source) {
            Next::Line(line) => line,
            Next::End => return Exit::Done,
            Next::LineTooLong | Next::ScriptTooLong => return Exit::TooLong,
            Next::ReadFault => return Exit::ReadFault,
            Next::Memory => return Exit::Memory,
        };
        match answer(
            &by,
            &mut catalog,
            sink,
            &mut reporter,
            book,
            number,
            line.as_slice(),
        ) {
            Ok(()) => {}
            Err(exit) => return exit,
        }
        match shorten(book) {
            Ok(()) => {}
            Err(exit) => return exit,
        }
    }
    unreachable!()
}

// Does a line and writes what it added to the text. The reporter has seen the history.
fn answer<W: Sink, K: Keeper, P: Provider>(
    by: &Means<'_>,
    catalog: &mut Catalog,
    sink: &mut W,
    reporter: &mut Reporter,
    book: &mut Book<K, P>,
    number: u64,
    line: &[u8],
) -> Result<(), Exit>
    requires seen { reporter.old ≡ seen_after (seen_of book.old.opening) book.old.entries }
    requires unhalted { book.old.halt ≡ None }
    ensures answered { LineAnswered (opening_of P.cloud book.old)
        (stock (map (λ t. t.test) by.now.registry.now.customs) catalog.old)
        (K.shown book.old.origin.keeper).recalls number line.now
        (page book.old.state book.old.entries) (page book.new.state book.new.entries)
        (line_end (P.cloud book.new.cloud) book.new.halt)
        (W.holds sink.old) (W.holds sink.new) result }
    ensures kinds { OnOk result (CatalogBehind line.now catalog.old catalog.new) }
    ensures seen { OnOk result (reporter.new ≡ seen_after (seen_of book.new.opening) book.new.entries) }
    ensures later { W.faults sink.old ≤ W.faults sink.new }
    ensures write { IsErrOf result Exit.WriteFault → Rose (W.faults sink.old) (W.faults sink.new) }
    ensures carries { Carries K.shown P.cloud book.old book.new }
    ensures unhalted { OnOk result (book.new.halt ≡ None) }
{
    let from = book.entries().len();
    match do_line(by, catalog, book, number, line) {
        Ok(()) => write_from(sink, reporter, book, from),
        Err(exit) => Err(exit),
    }
}

// Writes what the entries from a place on add to the text. The reporter has seen those before the place.
fn write_from<W: Sink, K: Keeper, P: Provider>(
    sink: &mut W,
    reporter: &mut Reporter,
    book: &Book<K, P>,
    from: usize,
) -> Result<(), Exit>
    requires from { from ≤ length book.now.entries }
    requires seen { reporter.old ≡ seen_after (seen_of book.now.opening) (take from book.now.entries) }
    ensures written { Written (W.holds sink.old) (W.holds sink.new)
        (text_after book.now.opening book.now.entries from) result }
    ensures seen { OnOk result (reporter.new ≡ seen_after (seen_of book.now.opening) book.now.entries) }
    ensures later { W.faults sink.old ≤ W.faults sink.new }
    ensures write { IsErrOf result Exit.WriteFault → Rose (W.faults sink.old) (W.faults sink.new) }
{
    let entries = book.entries();
    if from == entries.len() {
        return Ok(());
    }
    let Ok(text) = reporter.add(&entries[from..]) else {
        return Err(Exit::Memory);
    };
    match put_all(sink, text.as_str().as_bytes()) {
        Ok(()) => Ok(()),
        Err(PutFault::WriteFault) => Err(Exit::WriteFault),
        Err(PutFault::Memory) => Err(Exit::Memory),
    }
}
