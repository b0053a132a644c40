//! Templates of many allowed values, and of many references among a thousand resources.

use anyhow::Result;
use std::alloc::Global;

// How many resources there are; every second one has a condition that doesn't hold.
const RESOURCES: u32 = 1000;

// What each template begins with.
const OPENING: &str = "{\"heat_template_version\":\"2018-08-31\",";

/// A template with a list of so many items, each one of as many allowed values, which stand in falling order.
pub fn allowed(alloc: Global, size: u32) -> Result<String> {
    let mut text = String::from_str(alloc, OPENING)?;
    text.push_str("\"parameters\":{\"p\":{\"constraints\":[{\"allowed_values\":[\"z\"")?;
    for i in 1..size {
        let place = size - i;
        text.push_str(format!(in alloc; ",\"{place:05}\"")?.as_str())?;
    }
    text.push_str("]}],\"default\":[\"z\"")?;
    push_items(alloc, &mut text, size)?;
    text.push_str("],\"type\":\"comma_delimited_list\"}}}")?;
    Ok(text)
}

// The items behind the first, in rising order.
fn push_items(alloc: Global, text: &mut String, size: u32) -> Result<()> {
    for place in 1..size {
        text.push_str(format!(in alloc; ",\"{place:05}\"")?.as_str())?;
    }
    Ok(())
}

/// A template of a thousand resources, which name so many of those before them in all.
pub fn references(alloc: Global, size: u32) -> Result<String> {
    let mut text = String::from_str(alloc, OPENING)?;
    text.push_str("\"resources\":{")?;
    for i in 0..RESOURCES {
        push_resource(alloc, &mut text, i, size / RESOURCES)?;
        text.push_str(if i + 1 < RESOURCES { "," } else { "}}" })?;
    }
    Ok(text)
}

/// A template of a thousand resources, the last of which names so many of the others.
pub fn readers(alloc: Global, size: u32) -> Result<String> {
    let mut text = String::from_str(alloc, OPENING)?;
    text.push_str("\"resources\":{")?;
    for i in 1..RESOURCES {
        push_resource(alloc, &mut text, i, 0)?;
        text.push_str(",")?;
    }
    push_resource(alloc, &mut text, RESOURCES, size)?;
    text.push_str("}}")?;
    Ok(text)
}

// A resource that names so many of those before it.
fn push_resource(alloc: Global, text: &mut String, i: u32, size: u32) -> Result<()> {
    text.push_str(format!(in alloc; "\"r{i:04}\":{{")?.as_str())?;
    if i % 2 == 1 {
        text.push_str("\"condition\":false,")?;
    }
    text.push_str("\"properties\":{\"p\":[1")?;
    push_references(alloc, text, i, size)?;
    text.push_str("]},\"type\":\"Net\"}")?;
    Ok(())
}

// So many of those before it, here and there, the first one left out; none where there is no such one.
fn push_references(alloc: Global, text: &mut String, i: u32, size: u32) -> Result<()> {
    if i < 2 {
        return Ok(());
    }
    for j in 0..size {
        let place = j.wrapping_mul(31).wrapping_add(i) % (i - 1);
        push_reference(alloc, text, place + 1, j / 2)?;
    }
    Ok(())
}

// By turns its identity and an attribute.
fn push_reference(alloc: Global, text: &mut String, before: u32, turn: u32) -> Result<()> {
    let part = if turn % 2 == 0 {
        format!(in alloc; ",{{\"get_resource\":\"r{before:04}\"}}")?
    } else {
        format!(in alloc; ",{{\"get_attr\":[\"r{before:04}\",\"b\"]}}")?
    };
    text.push_str(part.as_str())?;
    Ok(())
}
