//! A case, and how it is tried: over a new book of two engines and an empty cloud.

use crate::asks::{Ask, tell};
use crate::judges::registry;
use book::{Book, Opened};
use provider::Provider;
use record_keeper::{Keeper, Unkept};
use sim_cloud::{Settings, SimCloud};
use std::alloc::Global;
use std::process::Abort;
use std::test::Fail;
use type_catalog::Registry;

/// The name of a case; the property that changes in place for a judge, if one is registered; what is asked,
/// and what is told of it.
#[derive(Clone, Copy)]
pub(crate) struct Case {
    pub name: &'static str,
    pub judged: Option<&'static str>,
    pub asks: &'static [Ask],
    pub told: &'static str,
}

/// Tries each case, and shows the first that differs.
pub(crate) fn try_all(rt: &(impl Abort + AllocGlobal), cases: &[Case]) -> Result<(), Fail> {
    for case in cases {
        let told = told(rt.alloc(), case).ok_or(case.name)?;
        assert_eq!(rt; told.as_slice(), case.told.as_bytes(), "{}", case.name);
    }
    Ok(())
}

// What is told; none where there is no memory.
fn told(alloc: Global, case: &Case) -> Option<Vec<u8>> {
    let registry = registry(alloc, case.judged)?;
    let mut book = opened(alloc)?;
    let told = told_in(alloc, &registry, &mut book, case.asks);
    let _ = book.give_back();
    told
}

// The same of a book.
fn told_in<K: Keeper, P: Provider>(
    alloc: Global,
    registry: &Registry,
    book: &mut Book<K, P>,
    asks: &[Ask],
) -> Option<Vec<u8>> {
    let e = *book.live().first()?;
    let mut told = Vec::new(alloc);
    for ask in asks {
        tell(alloc, registry, book, e, *ask, &mut told)?;
    }
    Some(told)
}

// A book of two engines over an empty cloud; none where there is no memory.
fn opened(alloc: Global) -> Option<Book<Unkept, SimCloud>> {
    match SimCloud::new(Settings::empty(alloc)) {
        Ok(cloud) => book_of(Book::recover(alloc, Unkept, cloud, 2)),
        Err(_) => None,
    }
}

// The book, if one was opened.
fn book_of(opened: Opened<Unkept, SimCloud>) -> Option<Book<Unkept, SimCloud>> {
    match opened {
        Opened::Book(book) => Some(book),
        Opened::Foreign(_, _)
        | Opened::Disagree(_, _, _, _)
        | Opened::DiskFault(_, _)
        | Opened::CloudFault(_, _)
        | Opened::Worn(_, _)
        | Opened::Memory(_, _) => None,
    }
}
