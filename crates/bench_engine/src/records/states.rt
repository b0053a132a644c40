//! States from lists of changes, and whether they are tied.
ghost use Rattle.state_images.specs.Images.{IsMade};

use crate::records::bytes::list_of;
use anyhow::{Result, bail};
use core_state::{Batch, Change, State};
use row_codec::Sheet;
use state_images::{is_tied, replay};
use std::alloc::Global;

/// How many rows the states have that are made in so many rounds.
pub fn replayed_often(alloc: Global, records: &[Sheet], rounds: u32) -> Result<usize> {
    let mut rows = 0usize;
    for _ in 0..rounds {
        match replay(alloc, lists_of(alloc, records)?)? {
            Some(state) => rows = rows.saturating_add(state.rows().len()),
            None => bail!("no state"),
        }
    }
    Ok(rows)
}

/// How often the one state is found to be tied, of so many rounds.
pub fn tied_often(alloc: Global, records: &[Sheet], rounds: u32) -> Result<usize> {
    match replay(alloc, lists_of(alloc, records)?)? {
        Some(state) => found_often(alloc, &state, rounds),
        None => bail!("no state"),
    }
}

fn found_often(alloc: Global, state: &State, rounds: u32) -> Result<usize>
    requires { IsMade state.now.state }
{
    let mut found = 0usize;
    for _ in 0..rounds {
        if is_tied(alloc, state)? {
            found = found.saturating_add(1);
        }
    }
    Ok(found)
}

fn lists_of(alloc: Global, records: &[Sheet]) -> Result<Batch<Batch<Change>>> {
    let mut lists = Batch::new(alloc);
    for record in records {
        lists.push(list_of(alloc, record)?)?;
    }
    Ok(lists)
}
