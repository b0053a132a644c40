//! What each of the tables asks for: boxes of a size.
use heat_plan::Properties;
use heat_value::{Props, Text, Value};
use std::alloc::Global;
use std::test::Fail;

/// Properties of this size.
pub(crate) fn sized(alloc: Global, size: i64) -> Result<Properties, Fail> {
    let mut props = Props::new(alloc);
    props.put(Text::from_str(alloc, "size")?, Value::Whole(size))?;
    Ok(Properties::from_props(props).ok_or("shallow")?)
}
