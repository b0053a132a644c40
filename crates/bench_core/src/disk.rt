//! Appends so many pieces of 200 bytes to a file, each with two syncs, as a journal does, and prints
//! how many there were and how many failed.
ghost use Rattle.std.specs.Prelude.{◌<◌, ◌^◌};

use crate::words::number;
use anyhow::Result;
use heat_disk::{Disk, FileDisk, Half};
use heat_value::Text;
use std::alloc::AllocError;

const PIECE: [u8; 200] = [7; 200];

/// The word is how many pieces: 1 where it is none, and at most a million.
pub fn run(rt: &HostRuntime, words: &[&str]) -> Result<()> {
    let count = number(words.first());
    let mut disk = FileDisk::at(rt, &Text::from_str(rt.alloc(), "bench_disk.file")?);
    append_all(&mut disk, count)?;
    println!(rt; "{count} appends, {} calls failed", disk.faults())?;
    Ok(())
}

fn append_all(disk: &mut FileDisk, count: u32) -> Result<(), AllocError> {
    for i in 0..count {
        append(disk, 200 * u64::from(i))?;
    }
    Ok(())
}

// A piece behind its first byte, a sync, its first byte, a sync.
fn append(disk: &mut FileDisk, at: u64) -> Result<(), AllocError>
    requires { at < 2 ^ 40 }
{
    disk.room(Half::First, at + 200, 200, 4)?;
    let _ = disk.write_at(Half::First, at + 1, &PIECE[1..]);
    let _ = disk.sync(Half::First);
    let _ = disk.write_at(Half::First, at, &PIECE[..1]);
    let _ = disk.sync(Half::First);
    Ok(())
}
