//! Writes, reads, replays and looks through the bytes of changes, round by round. Prints how many lists and
//! bytes there are, and what came out of all rounds.

mod bytes;
mod image;
mod states;

use crate::steps::life::recorded;
use crate::steps::shape_of;
use anyhow::{Result, bail};
use bytes::{read_often, written_often};
use image::image;
use row_codec::Sheet;
use states::{replayed_often, tied_often};
use std::alloc::Global;

// What is done in each round.
#[derive(Clone, Copy, Debug, PartialEq, Eq)]
enum Work {
    Write,
    Read,
    Replay,
    Tie,
}

/// The words are what is done (`write`, `read`, `replay` or `tie`), what the changes are of (the life of a `chain`,
/// a `fan` or a `tree`, or an `image`), how many resources or rows it has, and how many rounds are made.
pub fn run(rt: &HostRuntime, words: &[&str]) -> Result<()> {
    let [work, of, count, rounds, ..] = words else {
        bail!("write, read, replay or tie, of what, how many, and how often");
    };
    let (work, rounds) = (work_of(work)?, rounds.parse::<u32>()?);
    let records = records_of(rt.alloc(), of, count.parse::<u32>()?)?;
    let (lists, bytes) = (records.len(), bytes_of(records.as_slice()));
    let came = done(rt.alloc(), work, records.as_slice(), rounds)?;
    println!(rt; "{lists} lists, {bytes} bytes, {came}")?;
    Ok(())
}

fn work_of(word: &str) -> Result<Work> {
    match word {
        "write" => Ok(Work::Write),
        "read" => Ok(Work::Read),
        "replay" => Ok(Work::Replay),
        "tie" => Ok(Work::Tie),
        _ => bail!("write, read, replay or tie"),
    }
}

// The bytes of each list of changes.
fn records_of(alloc: Global, of: &str, count: u32) -> Result<Vec<Sheet>> {
    if of == "image" {
        return image(alloc, count);
    }
    recorded(alloc, shape_of(of)?, count)
}

// How many bytes there are.
fn bytes_of(records: &[Sheet]) -> usize {
    let mut bytes = 0usize;
    for record in records {
        bytes = bytes.saturating_add(record.count());
    }
    bytes
}

// How many bytes were written, changes read, rows made, or states found to be tied, in all rounds.
fn done(alloc: Global, work: Work, records: &[Sheet], rounds: u32) -> Result<usize> {
    match work {
        Work::Write => written_often(alloc, records, rounds),
        Work::Read => read_often(alloc, records, rounds),
        Work::Replay => replayed_often(alloc, records, rounds),
        Work::Tie => tied_often(alloc, records, rounds),
    }
}
