//! Plans of so many boxes.

use anyhow::{Result, bail};
use heat_plan::{Plan, StackName};
use sample_turns::plan_for;
use script_lines::Line;
use std::alloc::Global;

/// What the boxes need.
#[derive(Clone, Copy, Debug, PartialEq, Eq)]
pub enum Shape {
    /// Each needs the one before it.
    Chain,
    /// The last one needs all others.
    Fan,
    /// Each needs the one above it in a binary tree.
    Tree,
}

/// The stack's name and its plan; where it is changed, each third box is of another size, and each
/// seventh in another zone.
pub fn planned(
    alloc: Global,
    shape: Shape,
    count: u32,
    is_changed: bool,
) -> Result<(StackName, Plan)> {
    let line = line_of(alloc, shape, count, is_changed)?;
    match Line::read(alloc, line.as_bytes()) {
        Ok(Line::Create(name, body)) => match plan_for(alloc, &name, &body) {
            Ok(plan) => Ok((name, plan)),
            Err(_) => bail!("a plan"),
        },
        _ => bail!("a line that creates"),
    }
}

fn line_of(alloc: Global, shape: Shape, count: u32, is_changed: bool) -> Result<String> {
    let mut line = String::new(alloc);
    line.push_str("create s {\"template\":{\"heat_template_version\":\"2018-08-31\",")?;
    line.push_str("\"resources\":{")?;
    for place in 0..count {
        if 0 < place {
            line.push_str(",")?;
        }
        push_box(alloc, &mut line, place, is_changed)?;
        let (first, behind) = needs(shape, count, place);
        push_needs(alloc, &mut line, first, behind)?;
    }
    line.push_str("}}}")?;
    Ok(line)
}

fn push_box(alloc: Global, line: &mut String, place: u32, is_changed: bool) -> Result<()> {
    let size = if is_changed && place % 3 == 0 { 2 } else { 1 };
    let zone = if is_changed && place % 7 == 0 {
        "b"
    } else {
        "a"
    };
    line.push_str(format!(in alloc;
        "\"r{place:04}\":{{\"type\":\"Test::Box\",\"properties\":{{\"size\":{size},\"zone\":\"{zone}\"}},"
    )?.as_str())?;
    Ok(())
}

// The needs of a box: those from the first on, up to the one that stands behind the last.
fn push_needs(alloc: Global, line: &mut String, first: u32, behind: u32) -> Result<()> {
    line.push_str("\"depends_on\":[")?;
    for need in first..behind {
        if first < need {
            line.push_str(",")?;
        }
        line.push_str(format!(in alloc; "\"r{need:04}\"")?.as_str())?;
    }
    line.push_str("]}")?;
    Ok(())
}

// The first box that this one needs, and the one behind the last that it needs.
fn needs(shape: Shape, count: u32, place: u32) -> (u32, u32) {
    match shape {
        Shape::Chain => (place.saturating_sub(1), place),
        Shape::Fan if place.saturating_add(1) < count => (place, place),
        Shape::Fan => (0, place),
        Shape::Tree => (place.saturating_sub(1) / 2, place.saturating_add(1) / 2),
    }
}
