//! Runs the engine and what it reads for the clock outside: its steps, the bytes of its changes, templates,
//! lines of many parts, functions of values and of texts. The first word is what is measured, the other
//! words are its own; `all` runs each at its least size. Each prints a line, which is the same at each run.
#![tactic(auto)]

mod lines;
mod reading;
mod records;
mod resolved;
mod steps;
mod strings;
mod templates;
mod values;

use anyhow::{Result, bail};
use std::env;

fn main(rt: HostRuntime) -> Result<()> {
    let given = env::args(&rt)?.skip(1).collect::<Vec<String>>(rt.alloc())?;
    let mut words = Vec::new(rt.alloc());
    for word in given.as_slice() {
        words.push(word.as_str())?;
    }
    let [what, words @ ..] = words.as_slice() else {
        bail!("steps, records, templates, lines, values, strings or all");
    };
    run(&rt, what, words)
}

// Runs what the word names, by the words behind it.
fn run(rt: &HostRuntime, what: &str, words: &[&str]) -> Result<()> {
    match what {
        "steps" => steps::run(rt, words),
        "records" => records::run(rt, words),
        "templates" => templates::run(rt, words),
        "lines" => lines::run(rt, words),
        "values" => values::run(rt, words),
        "strings" => strings::run(rt, words),
        "all" => run_all(rt),
        _ => bail!("steps, records, templates, lines, values, strings or all"),
    }
}

// Runs each at its least size.
fn run_all(rt: &HostRuntime) -> Result<()> {
    steps::run(rt, &["chain", "delete", "12"])?;
    records::run(rt, &["replay", "tree", "12", "1"])?;
    templates::run(rt, &["admit", "12"])?;
    lines::run(rt, &["facts", "12"])?;
    values::run(rt, &["property", "strict", "12"])?;
    strings::run(rt, &["replace", "1000"])
}
