//! The top call: from the words and the bytes that come in to the bytes that go out.
ghost use Rattle.std.specs.Prelude.{◌≡◌, ◌≢◌, ◌≤◌, ◌↔◌, [], None, map};
ghost use Rattle.driver.specs.Kept.{Shown, IsSameBook};
ghost use Rattle.driver.specs.Scenes.{scene_of};
ghost use Rattle.converge_call.specs.Words.{IsForm};
ghost use Rattle.converge_call.specs.Ends.{outside, first_scene, HasDriven, OpensFor, OpensWith};
ghost use Rattle.converge_call.specs.Ends.{AsksFor, IsUnopened, IsUntouched};
ghost use Rattle.converge_call.specs.Promises.{Promises};
ghost use Rattle.converge_call.specs.Stocks.{first_stock};
ghost use Rattle.converge_call.specs.declared.setup.Mode.{Mode as mode_type};

use crate::drive::drive;
use crate::exit::Exit;
use crate::{WordsFault, words_of};
use driver::{Book, Opened};
use heat_io::{Sink, Source};
use heat_value::Text;
use provider::Provider;
use record_keeper::Keeper;
use std::alloc::Global;
use type_catalog::Registry;

/// What is left at the end: the book, which may be halted; or keeper and cloud, where no book was opened.
pub enum End<K: Keeper, P: Provider> {
    Book(Book<K, P>),
    Unopened(K, P),
}

impl<K: Keeper, P: Provider> End<K, P> {
    /// The keeper, and the cloud as the book's calls have left it.
    pub fn give_back(self) -> (K, P)
        ensures book { (b : Shown K P) → self ≡ End.Book b → result ≡ (b.keeper, b.cloud) }
        ensures unopened { (k : K) (p : P) → self ≡ End.Unopened k p → result ≡ (k, p) }
    {
        match self {
            End::Book(book) => book.give_back(),
            End::Unopened(keeper, cloud) => (keeper, cloud),
        }
    }
}

/// The status, and what is left.
pub struct Outcome<K: Keeper, P: Provider> {
    pub status: Exit,
    pub end: End<K, P>,
}

/// Does what the words ask for: a book is driven over the keeper and the cloud by the source's script, and
/// its text is written. The kinds and tests of the registry stand before the first line.
pub fn converge<S: Source, W: Sink, K: Keeper, P: Provider>(
    alloc: Global,
    words: &[Text],
    source: &mut S,
    sink: &mut W,
    keeper: K,
    cloud: P,
    registry: &Registry,
) -> Outcome<K, P>
    // Usage comes exactly where the words are none of the forms; nothing is then read or written.
    ensures usage { (result.status ≡ Exit.Usage) ↔ ((m : mode_type) → ¬ IsForm words.now m) }
    ensures source { result.status ≡ Exit.Usage → source.new ≡ source.old }
    ensures sink { result.status ≡ Exit.Usage → sink.new ≡ sink.old }

    // No book is opened for the words, for want of memory, or for what its opening came to; nothing is then read
    // or written.
    ensures unopened { (k : K) (p : P) → result.end ≡ End.Unopened k p
        → IsUnopened K.may_open K.shown K.faults P.cloud (AsksFor words.now)
        (record { keeper = keeper; cloud = cloud }) (record { keeper = k; cloud = p }) result.status }
    ensures untouched { (k : K) (p : P) → result.end ≡ End.Unopened k p
        → IsUntouched source.old source.new sink.old sink.new }

    // A book is opened with as many engines as the words say, over an image of the keeper's and what the cloud lists,
    // which agree.
    ensures opened { (b : Shown K P) → result.end ≡ End.Book b
        → OpensFor (K.may_open keeper) words.now (K.shown keeper) (K.shown b.origin.keeper)
        (K.faults keeper) (K.faults b.origin.keeper) (P.cloud cloud) (P.cloud b.origin.cloud) b.opening }

    // A book that is handed back was driven by the lines; from a sound opening the main theorem holds of it.
    ensures driven { (b : Shown K P) → result.end ≡ End.Book b → HasDriven
        (first_stock (map (λ j. j.kind) registry.now.judges) (map (λ t. t.test) registry.now.customs))
        (K.shown b.origin.keeper) (K.shown b.keeper) (first_scene P.cloud b) (scene_of P.cloud b) b.halt
        (outside (S.left source.old) (S.faults source.old) (W.holds sink.old) (W.faults sink.old)
        (K.faults keeper))
        (outside (S.left source.new) (S.faults source.new) (W.holds sink.new) (W.faults sink.new)
        (K.faults b.keeper))
        result.status }
{
    match words_of(alloc, words) {
        Ok(mode) => {
            let setup = mode.setup();
            run_serial(alloc, setup.workers, source, sink, keeper, cloud, registry)
        }
        Err(WordsFault::Usage) => unopened(Exit::Usage, keeper, cloud),
        Err(WordsFault::Memory) => unopened(Exit::Memory, keeper, cloud),
    }
}

/// Drives a book with so many engines over the keeper and the cloud by the source's script, and writes its
/// text. It waits for nobody.
pub fn run_serial<S: Source, W: Sink, K: Keeper, P: Provider>(
    alloc: Global,
    workers: u8,
    source: &mut S,
    sink: &mut W,
    keeper: K,
    cloud: P,
    registry: &Registry,
) -> Outcome<K, P>
    requires some { 1 ≤ workers }
    requires few { workers ≤ 64 }
    ensures status { result.status ≢ Exit.Usage }

    // No book is opened for want of memory or for what its opening came to; nothing is then read or written.
    ensures unopened { (k : K) (p : P) → result.end ≡ End.Unopened k p
        → IsUnopened K.may_open K.shown K.faults P.cloud (λ n. n ≡ workers)
        (record { keeper = keeper; cloud = cloud }) (record { keeper = k; cloud = p }) result.status }
    ensures untouched { (k : K) (p : P) → result.end ≡ End.Unopened k p
        → IsUntouched source.old source.new sink.old sink.new }

    // A book is opened with so many engines, over an image of the keeper's and what the cloud lists, which agree.
    ensures opened { (b : Shown K P) → result.end ≡ End.Book b
        → OpensWith (K.may_open keeper) workers (K.shown keeper) (K.shown b.origin.keeper)
        (K.faults keeper) (K.faults b.origin.keeper) (P.cloud cloud) (P.cloud b.origin.cloud) b.opening }

    // A book that is handed back was driven by the lines; from a sound opening the main theorem holds of it.
    ensures driven { (b : Shown K P) → result.end ≡ End.Book b → HasDriven
        (first_stock (map (λ j. j.kind) registry.now.judges) (map (λ t. t.test) registry.now.customs))
        (K.shown b.origin.keeper) (K.shown b.keeper) (first_scene P.cloud b) (scene_of P.cloud b) b.halt
        (outside (S.left source.old) (S.faults source.old) (W.holds sink.old) (W.faults sink.old)
        (K.faults keeper))
        (outside (S.left source.new) (S.faults source.new) (W.holds sink.new) (W.faults sink.new)
        (K.faults b.keeper))
        result.status }
{
    match Book::recover(alloc, keeper, cloud, workers) {
        Opened::Book(book) => driven(alloc, source, sink, book, registry),
        Opened::Foreign(keeper, cloud) => unopened(Exit::Foreign, keeper, cloud),
        Opened::Disagree(keeper, cloud, token, finding) => {
            unopened(Exit::Disagree(token, finding), keeper, cloud)
        }
        Opened::DiskFault(keeper, cloud) => unopened(Exit::DiskFault, keeper, cloud),
        Opened::CloudFault(keeper, cloud) => unopened(Exit::CloudFault, keeper, cloud),
        Opened::Worn(keeper, cloud) => unopened(Exit::Worn, keeper, cloud),
        Opened::Memory(keeper, cloud) => unopened(Exit::Memory, keeper, cloud),
    }
}

/// No book was opened.
pub(crate) fn unopened<K: Keeper, P: Provider>(status: Exit, keeper: K, cloud: P) -> Outcome<K, P>
    ensures status { result.status ≡ status }
    ensures end { result.end ≡ End.Unopened keeper cloud }
{
    Outcome {
        status,
        end: End::Unopened(keeper, cloud),
    }
}

// Drives a book that was just opened.
fn driven<S: Source, W: Sink, K: Keeper, P: Provider>(
    alloc: Global,
    source: &mut S,
    sink: &mut W,
    book: Book<K, P>,
    registry: &Registry,
) -> Outcome<K, P>
    requires state { book.state ≡ book.opening }
    requires entries { book.entries ≡ [] }
    requires keeper { book.keeper ≡ book.origin.keeper }
    requires unhalted { book.halt ≡ None }
    ensures status { result.status ≢ Exit.Usage }
    ensures book { (k : K) (p : P) → result.end ≢ End.Unopened k p }
    ensures same { (b : Shown K P) → result.end ≡ End.Book b → IsSameBook book b }
    ensures driven { (b : Shown K P) → result.end ≡ End.Book b → HasDriven
        (first_stock (map (λ j. j.kind) registry.now.judges) (map (λ t. t.test) registry.now.customs))
        (K.shown b.origin.keeper) (K.shown b.keeper) (first_scene P.cloud b) (scene_of P.cloud b) b.halt
        (outside (S.left source.old) (S.faults source.old) (W.holds sink.old) (W.faults sink.old)
        (K.faults b.origin.keeper))
        (outside (S.left source.new) (S.faults source.new) (W.holds sink.new) (W.faults sink.new)
        (K.faults b.keeper))
        result.status }
{
    let mut book = book;
    book.promises();
    let status = drive(alloc, source, sink, &mut book, registry);
    ended(status, book)
}

// A book is handed back, with what it promises.
fn ended<K: Keeper, P: Provider>(status: Exit, book: Book<K, P>) -> Outcome<K, P>
    ensures status { result.status ≡ status }
    ensures end { result.end ≡ End.Book book }
    ensures promises { Promises K.shown K.faults P.cloud book }
{
    book.promises();
    let _ = book.halted();
    Outcome {
        status,
        end: End::Book(book),
    }
}
