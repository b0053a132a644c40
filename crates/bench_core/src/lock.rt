//! Counts the holds of a lock: so many passes hold it so often each. It prints the counts.

mod passes;
mod tally;

use anyhow::Result;
use passes::{hold_all, opened, split_to};
use std::sync::Wait;
use std::thread::Threads;

/// The words are how many passes, 1 to 64, and how often each holds the lock; 1 where a word is none.
pub fn run<R: Threads + Wait + Sync>(rt: &HostRuntime, handle: &R, words: &[&str]) -> Result<()> {
    let threads = number(words.first()).clamp(1, 64);
    let holds = number(words.get(1));
    let (shared, mut passes) = opened(rt.alloc(), threads as usize)?;
    let split = split_to(&shared, &mut passes, threads as usize);
    hold_all(handle, &shared, &mut passes, holds);
    let tally = shared.close(passes);
    split?;
    println!(rt; "threads {threads} holds {holds} total {}", tally.holds)?;
    Ok(())
}

// The number that a word gives, or 1.
fn number(word: Option<&&str>) -> u64 {
    word.and_then(|text| text.parse::<u64>().ok()).unwrap_or(1)
}
