//! What several tests share: a create and what it adds, and a drive from memory into memory.
use converge_call::{Outcome, Unkept, converge_shipped};
use heat_io::{MemSink, MemSource};
use heat_value::Text;
use sim_cloud::{Settings, SimCloud};
use std::alloc::{AllocError, Global};

/// A create of the stack `s` with one resource.
pub(crate) const CREATE: &str = "create s {\"template\":{\"heat_template_version\":\"2018-08-31\",\
    \"resources\":{\"a\":{\"type\":\"Test::Box\",\"properties\":{\"size\":1}}}}}\n";

/// A run to its end.
pub(crate) const RUN: &str = "run\n";

/// What it adds with its run.
pub(crate) const CREATED: &str = "stack s 1 CREATE_IN_PROGRESS\nresource s a 1 CREATE_IN_PROGRESS\n\
    resource s a 1 CREATE_COMPLETE\nstack s 1 CREATE_COMPLETE\nidle 5\n";

/// The parts, one behind another.
pub(crate) fn joined(alloc: Global, parts: &[&str]) -> Result<String, AllocError> {
    let mut text = String::new(alloc);
    for part in parts {
        text.push_str(part)?;
    }
    Ok(text)
}

/// Drives an empty simulated cloud, and says how that ended.
pub(crate) fn drives(
    alloc: Global,
    source: &mut MemSource,
    sink: &mut MemSink,
) -> Result<Outcome<Unkept, SimCloud>, AllocError> {
    let words = [Text::from_str(alloc, "drive")?];
    let cloud = SimCloud::new(Settings::empty(alloc))?;
    Ok(converge_shipped(alloc, &words, source, sink, Unkept, cloud))
}
