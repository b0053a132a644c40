//! Takes one line of many parts: a catalogue, or a template of allowed values or of references among a
//! thousand resources. Prints what came out.

mod catalogues;
mod facts;
mod parts;

use crate::reading::{bound, plan_of, read, taken};
use crate::resolved::parts_of_last;
use anyhow::{Result, bail};
use catalogues::{answer, attributes, kinds};
use facts::known;
use heat_value::{Props, Value};
use parts::{allowed, readers, references};
use std::alloc::Global;
use type_catalog::Registry;

// What there is much of.
#[derive(Clone, Copy, Debug, PartialEq, Eq)]
enum Part {
    Kinds,
    Attributes,
    Allowed,
    References,
    Facts,
}

/// The words are what there is much of (`types`, `attributes`, `allowed`, `references` or `facts`) and how many.
pub fn run(rt: &HostRuntime, words: &[&str]) -> Result<()> {
    let [part, size, ..] = words else {
        bail!("types, attributes, allowed, references or facts, and how many");
    };
    let (part, size) = (part_of(part)?, size.parse::<u32>()?);
    println!(rt; "{}", done(rt.alloc(), part, size)?)?;
    Ok(())
}

fn part_of(word: &str) -> Result<Part> {
    match word {
        "types" => Ok(Part::Kinds),
        "attributes" => Ok(Part::Attributes),
        "allowed" => Ok(Part::Allowed),
        "references" => Ok(Part::References),
        "facts" => Ok(Part::Facts),
        _ => bail!("types, attributes, allowed, references or facts"),
    }
}

// The answer to the catalogue, or how many items, needs or facts came out.
fn done(alloc: Global, part: Part, size: u32) -> Result<String> {
    match part {
        Part::Kinds => answer(alloc, kinds(alloc, size)?.as_str()),
        Part::Attributes => answer(alloc, attributes(alloc, size)?.as_str()),
        Part::Allowed => text_of(alloc, items_of(alloc, allowed(alloc, size)?.as_str())?),
        Part::References => text_of(alloc, needs_of(alloc, references(alloc, size)?.as_str())?),
        Part::Facts => text_of(alloc, facts_of(alloc, readers(alloc, size)?.as_str())?),
    }
}

fn text_of(alloc: Global, count: usize) -> Result<String> {
    Ok(format!(in alloc; "{count}")?)
}

// How many items the template's list is bound to.
fn items_of(alloc: Global, text: &str) -> Result<usize> {
    let template = taken(alloc, &read(alloc, text)?)?;
    let bound = bound(
        alloc,
        &template,
        &Props::new(alloc),
        &Registry::empty(alloc),
    )?;
    for member in bound.params.as_props().as_slice() {
        if let Value::Items(items) = &member.value {
            return Ok(items.as_slice().len());
        }
    }
    bail!("no list")
}

// How many needs the template's resources have in all.
fn needs_of(alloc: Global, text: &str) -> Result<usize> {
    let plan = plan_of(alloc, text)?;
    let mut count = 0usize;
    for item in plan.items() {
        count = count.saturating_add(item.needs.as_slice().len());
    }
    Ok(count)
}

// How many facts the template's last resource reads of those before it.
fn facts_of(alloc: Global, text: &str) -> Result<usize> {
    let plan = plan_of(alloc, text)?;
    let known = known(alloc, &plan)?;
    parts_of_last(alloc, &plan, known.as_slice())
}
