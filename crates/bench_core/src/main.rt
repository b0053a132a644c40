//! Runs what lies below the engine for the clock outside: the disk, the journal over it, the lock, the
//! tables, and graphs. The first word is what is measured, the other words are its own; `all` runs each at
//! its least size. Each prints a line, which is the same at each run.
#![tactic(auto)]

mod disk;
mod graph;
mod journal;
mod lock;
mod tables;
mod words;

use anyhow::{Result, bail};
use std::env;
use std::sync::Wait;
use std::thread::Threads;

fn main(rt: HostRuntime) -> Result<()> {
    let given = env::args(&rt)?.skip(1).collect::<Vec<String>>(rt.alloc())?;
    let mut words = Vec::new(rt.alloc());
    for word in given.as_slice() {
        words.push(word.as_str())?;
    }
    let [what, words @ ..] = words.as_slice() else {
        bail!("disk, journal, lock, tables, graph or all");
    };
    run(&rt, &rt, what, words)
}

// Runs what the word names, by the words behind it; the handle is the lock's.
fn run<R: Threads + Wait + Sync>(
    rt: &HostRuntime,
    handle: &R,
    what: &str,
    words: &[&str],
) -> Result<()> {
    match what {
        "disk" => disk::run(rt, words),
        "journal" => journal::run(rt, words),
        "lock" => lock::run(rt, handle, words),
        "tables" => tables::run(rt, words),
        "graph" => graph::run(rt, words),
        "all" => run_all(rt, handle),
        _ => bail!("disk, journal, lock, tables, graph or all"),
    }
}

// Runs each at its least size.
fn run_all<R: Threads + Wait + Sync>(rt: &HostRuntime, handle: &R) -> Result<()> {
    disk::run(rt, &["3"])?;
    journal::run(rt, &["3"])?;
    lock::run(rt, handle, &["2", "100"])?;
    tables::run(rt, &["rows", "life", "12"])?;
    graph::run(rt, &["build", "12"])
}
