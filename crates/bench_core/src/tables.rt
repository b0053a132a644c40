//! Runs calls over the indexed tables. Prints how many answers told something.

mod mail;
mod points;
mod rows;

use anyhow::{Result, bail};
use std::alloc::Global;

/// The words are the table, what is done, and how many: `rows make`, `rows put`, `rows find`, `rows life`,
/// `mail put`, `mail find`, `points gather`.
pub fn run(rt: &HostRuntime, words: &[&str]) -> Result<()> {
    let [table, what, count, ..] = words else {
        bail!("the table, what is done, and how many");
    };
    let told = told(rt.alloc(), table, what, count.parse::<u32>()?)?;
    println!(rt; "{told} answers")?;
    Ok(())
}

// How many answers told something, by the table and what is done.
fn told(alloc: Global, table: &str, what: &str, count: u32) -> Result<usize> {
    match (table, what) {
        ("rows", "make") => rows::made(alloc, count),
        ("rows", "put") => rows::put(alloc, count),
        ("rows", "find") => rows::found(alloc, count),
        ("rows", "life") => rows::lived(alloc, count),
        ("mail", "put") => mail::put(alloc, count),
        ("mail", "find") => mail::found(alloc, count),
        ("points", "gather") => points::gathered(alloc, count),
        _ => bail!("rows, mail or points, and what is done"),
    }
}
