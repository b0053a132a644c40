//! Runs the life of one stack by the engine's steps alone. Prints how many turns were made and how many
//! rows stand.

pub mod course;
pub mod life;
pub mod plans;

use anyhow::{Result, bail};
use life::{Work, lived};
use plans::Shape;

/// The words are the shape (`chain`, `tree`, or `fan`, where one needs all others), how far it goes (`create`,
/// `same`, `change` or `delete`) and how many resources.
pub fn run(rt: &HostRuntime, words: &[&str]) -> Result<()> {
    let [shape, until, count, ..] = words else {
        bail!("chain, fan or tree, how far it goes, and how many");
    };
    let (shape, until) = (shape_of(shape)?, work_of(until)?);
    let (turns, rows) = lived(rt.alloc(), until, shape, count.parse::<u32>()?)?;
    println!(rt; "{turns} turns, {rows} rows")?;
    Ok(())
}

/// The shape that a word means.
pub fn shape_of(word: &str) -> Result<Shape> {
    match word {
        "chain" => Ok(Shape::Chain),
        "fan" => Ok(Shape::Fan),
        "tree" => Ok(Shape::Tree),
        _ => bail!("chain, fan or tree"),
    }
}

fn work_of(word: &str) -> Result<Work> {
    match word {
        "create" => Ok(Work::Create),
        "same" => Ok(Work::Same),
        "change" => Ok(Work::Change),
        "delete" => Ok(Work::Delete),
        _ => bail!("create, same, change or delete"),
    }
}
