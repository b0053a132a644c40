//! Adds so many records of 500 bytes to a journal on real files, and prints how many it took. With a
//! second word, `bare`, it makes the writes and syncs alone.
ghost use Rattle.std.specs.Prelude.{◌<◌, ◌^◌};

use crate::words::number;
use anyhow::Result;
use heat_disk::{Disk, FileDisk, Half};
use heat_value::Text;
use row_journal::{Journal, Recovered};
use std::alloc::{AllocError, Global};

const RECORD: [u8; 500] = [7; 500];

// What stands behind the gate of such a record: two numbers, its bytes, and the next gate.
const BEHIND: [u8; 517] = [7; 517];

/// The first word is how many records, 1 where it is none, and at most a million; with a second word the
/// journal is left out.
pub fn run(rt: &HostRuntime, words: &[&str]) -> Result<()> {
    let count = number(words.first());
    let disk = FileDisk::at(rt, &Text::from_str(rt.alloc(), "bench_journal.file")?);
    let taken = match words.get(1) {
        Some(_bare) => write_all(disk, count)?,
        None => add_all(rt.alloc(), disk, count)?,
    };
    println!(rt; "{taken} of {count} records")?;
    Ok(())
}

// How many records a journal took.
fn add_all(alloc: Global, disk: FileDisk, count: u32) -> Result<u32, AllocError> {
    let Recovered::Opened(journal, _payloads) = Journal::recover(alloc, disk) else {
        return Ok(0);
    };
    let mut journal = journal;
    for taken in 0..count {
        if !add(&mut journal, &RECORD)? {
            return Ok(taken);
        }
    }
    Ok(count)
}

// Whether the journal took a record.
fn add(journal: &mut Journal<FileDisk>, bytes: &[u8]) -> Result<bool, AllocError> {
    if journal.has_failed() || journal.version() != 2 {
        return Ok(false);
    }
    journal.reserve(bytes.len())?;
    Ok(journal.append(bytes).is_ok())
}

fn write_all(disk: FileDisk, count: u32) -> Result<u32, AllocError> {
    let mut disk = disk;
    for taken in 0..count {
        if !write_bare(&mut disk, 517 * u64::from(taken))? {
            return Ok(taken);
        }
    }
    Ok(count)
}

// A write behind the gate, a sync, the gate, a sync.
fn write_bare(disk: &mut FileDisk, at: u64) -> Result<bool, AllocError>
    requires { at < 2 ^ 42 }
{
    disk.room(Half::First, at + 518, 518, 4)?;
    Ok(
        disk.write_at(Half::First, at + 1, &BEHIND).is_ok()
            && disk.sync(Half::First).is_ok()
            && disk.write_at(Half::First, at, &[1]).is_ok()
            && disk.sync(Half::First).is_ok(),
    )
}
