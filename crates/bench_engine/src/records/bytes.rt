//! Lists of changes from their bytes, and back.

use anyhow::{Result, bail};
use core_state::{Batch, Change, Ready, ready_all};
use row_codec::{Sheet, read, write};
use std::alloc::Global;

/// How many changes are read in so many rounds.
pub fn read_often(alloc: Global, records: &[Sheet], rounds: u32) -> Result<usize> {
    let mut count = 0usize;
    for _ in 0..rounds {
        count = count.saturating_add(read_once(alloc, records)?);
    }
    Ok(count)
}

fn read_once(alloc: Global, records: &[Sheet]) -> Result<usize> {
    let mut count = 0usize;
    for record in records {
        count = count.saturating_add(changes_of(alloc, record)?.len());
    }
    Ok(count)
}

/// How many bytes are written in so many rounds.
pub fn written_often(alloc: Global, records: &[Sheet], rounds: u32) -> Result<usize> {
    let lists = ready_lists(alloc, records)?;
    let mut count = 0usize;
    for _ in 0..rounds {
        count = count.saturating_add(written_once(alloc, lists.as_slice())?);
    }
    Ok(count)
}

fn written_once(alloc: Global, lists: &[Batch<Ready>]) -> Result<usize> {
    let mut count = 0usize;
    for list in lists {
        count = count.saturating_add(write(alloc, list.as_slice())?.count());
    }
    Ok(count)
}

// The lists, each change with its memory.
fn ready_lists(alloc: Global, records: &[Sheet]) -> Result<Vec<Batch<Ready>>> {
    let mut lists = Vec::new(alloc);
    for record in records {
        lists.push(ready_all(alloc, list_of(alloc, record)?)?)?;
    }
    Ok(lists)
}

/// The list of a record, to be made.
pub fn list_of(alloc: Global, record: &Sheet) -> Result<Batch<Change>> {
    let mut list = Batch::new(alloc);
    for change in changes_of(alloc, record)? {
        list.push(change)?;
    }
    Ok(list)
}

// The changes of a record.
fn changes_of(alloc: Global, record: &Sheet) -> Result<Vec<Change>> {
    match read(alloc, record.as_slice())? {
        Some(changes) => Ok(changes),
        None => bail!("no changes"),
    }
}
