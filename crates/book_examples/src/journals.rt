//! Books over a journal in memory: what a crash leaves of one, the next goes on from.

use crate::asks::{Ask, tell};
use crate::judges::registry;
use crate::orders::Order;
use book::{Book, Opened};
use heat_disk::MemDisk;
use heat_plan::Status;
use sim_cloud::{Settings, SimCloud};
use state_journal::Journaled;
use std::alloc::Global;
use std::test::Fail;
use type_catalog::Registry;

// A book over a journal.
type Lasting = Book<Journaled<MemDisk>, SimCloud>;

// A book of one engine over the journal on this disk; none where it isn't opened.
fn opened(alloc: Global, disk: MemDisk, cloud: SimCloud) -> Option<Lasting> {
    match Book::recover(alloc, Journaled::new(alloc, disk), cloud, 1) {
        Opened::Book(book) => Some(book),
        Opened::Foreign(_, _)
        | Opened::Disagree(_, _, _, _)
        | Opened::DiskFault(_, _)
        | Opened::CloudFault(_, _)
        | Opened::Worn(_, _)
        | Opened::Memory(_, _) => None,
    }
}

// The same over an empty disk and an empty cloud.
fn begun(alloc: Global) -> Option<Lasting> {
    let disk = MemDisk::new(alloc, &[]).ok()?;
    let cloud = SimCloud::new(Settings::empty(alloc)).ok()?;
    opened(alloc, disk, cloud)
}

// The book that is opened over what a crash leaves of this one's disk, and over its cloud.
fn reopened(alloc: Global, book: Lasting, fill: Option<u8>) -> Option<Lasting> {
    let (keeper, cloud) = book.give_back();
    let disk = keeper.inner().crash(fill).ok()?;
    opened(alloc, disk, cloud)
}

// Makes so many turns of the book's engine.
fn turned(alloc: Global, registry: &Registry, book: &mut Lasting, times: u8) -> Option<()> {
    let e = *book.live().first()?;
    let mut told = Vec::new(alloc);
    tell(alloc, registry, book, e, Ask::Turns(times), &mut told)
}

// Creates the stack, and makes so many turns.
fn created(alloc: Global, registry: &Registry, book: &mut Lasting, times: u8) -> Option<()> {
    let e = *book.live().first()?;
    let mut told = Vec::new(alloc);
    let create = Ask::Order(Order::Create("size"));
    tell(alloc, registry, book, e, create, &mut told)?;
    turned(alloc, registry, book, times)
}

// How many rows are complete, and how many there are, where a crash comes so many turns behind a create, and
// the next book makes its own turns.
fn lived(alloc: Global, before: u8, fill: Option<u8>) -> Option<(usize, usize)> {
    let registry = registry(alloc, None)?;
    let mut first = begun(alloc)?;
    let created = created(alloc, &registry, &mut first, before);
    let mut second = reopened(alloc, first, fill)?;
    let turned = turned(alloc, &registry, &mut second, 20);
    let counts = counted(&second);
    let _ = second.give_back();
    created?;
    turned?;
    Some(counts)
}

// How many rows are complete, and how many there are.
fn counted(book: &Lasting) -> (usize, usize) {
    let rows = book.state().rows();
    let mut complete: usize = 0;
    for row in rows {
        if row.status == Status::Complete {
            complete = complete.saturating_add(1);
        }
    }
    (complete, rows.len())
}

#[test]
fn a_book_goes_on_from_what_a_crash_left(rt: HostRuntime) -> Result<(), Fail> {
    for fill in [None, Some(0), Some(1), Some(255)] {
        for before in 0..7_u8 {
            let lived = lived(rt.alloc(), before, fill);
            assert_eq!(rt; lived, Some((1, 1)), "after {before} turns");
        }
    }
    Ok(())
}
