//! Draws graphs. Prints how many nodes or edges came out, or the node on a loop.

mod loops;
mod needs;
mod order;
mod traversal;

use anyhow::{Result, bail};
use needs::Shape;
use std::alloc::Global;

/// The words are one of these: `order n` lists n nodes of ten edges each, `build n` draws the traversal's
/// graph of n items of ten needs each and n rows, `needs rising`, `needs falling` and `needs mixed` that of a
/// thousand items with 190,209 needs, `again` in the place of `needs` the same where each has a row, `gone`
/// that of the rows alone, `loops n` finds the least node on a loop in a chain of n nodes.
pub fn run(rt: &HostRuntime, words: &[&str]) -> Result<()> {
    let Some(what) = words.first() else {
        bail!("order, build, needs, again, gone or loops");
    };
    let Some(size) = words.get(1) else {
        bail!("how many, or in which order");
    };
    match *what {
        "order" => println!(rt; "{} nodes", order::listed(rt.alloc(), count_of(size)?)?)?,
        "build" => println!(rt; "{} edges", traversal::drawn(rt.alloc(), count_of(size)?)?)?,
        "loops" => println!(rt; "node {}", loops::found(rt.alloc(), count_of(size)?)?)?,
        _ => println!(rt; "{} edges", drawn(rt.alloc(), what, size)?)?,
    }
    Ok(())
}

fn count_of(text: &str) -> Result<u32> {
    Ok(text.parse::<u32>()?)
}

// How many edges a thousand items or their rows come to.
fn drawn(alloc: Global, what: &str, shape: &str) -> Result<usize> {
    match what {
        "needs" => needs::drawn(alloc, shape_of(shape)?),
        "again" => needs::drawn_again(alloc, shape_of(shape)?),
        "gone" => needs::drawn_gone(alloc, shape_of(shape)?),
        _ => bail!("order, build, needs, again, gone or loops"),
    }
}

fn shape_of(text: &str) -> Result<Shape> {
    match text {
        "rising" => Ok(Shape::Rising),
        "falling" => Ok(Shape::Falling),
        "mixed" => Ok(Shape::Mixed),
        _ => bail!("rising, falling or mixed"),
    }
}
