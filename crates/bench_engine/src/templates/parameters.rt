//! A hundred parameters of each sort with each constraint, and what they are given.

use anyhow::Result;
use std::alloc::Global;

// What stands behind a parameter's name, and what it is given, as texts.
const SORTS: [(&str, &str); 5] = [
    (
        "{\"constraints\":[{\"length\":{\"max\":64,\"min\":1}},\
            {\"allowed_pattern\":\"[a-z0-9.-]+\"}],\"type\":\"string\"}",
        "\"debian-12\"",
    ),
    (
        "{\"constraints\":[{\"range\":{\"max\":100,\"min\":0}},\
            {\"modulo\":{\"offset\":2,\"step\":5}}],\"type\":\"number\"}",
        "\"42\"",
    ),
    ("{\"default\":true,\"type\":\"boolean\"}", "\"yes\""),
    (
        "{\"default\":{},\"type\":\"json\"}",
        "\"[1,{\\\"a\\\":null}]\"",
    ),
    (
        "{\"constraints\":[{\"custom_constraint\":\"nova.flavor\"}],\"type\":\"comma_delimited_list\"}",
        "\"m1.tiny, m1.large\"",
    ),
];

/// Puts the hundred parameters behind the text, `p00` to `p99`.
pub fn push_parameters(alloc: Global, text: &mut String) -> Result<()> {
    for i in 0..100 {
        if 0 < i {
            text.push_str(",")?;
        }
        let (described, _) = SORTS[i % 5];
        text.push_str(format!(in alloc; "\"p{i:02}\":{described}")?.as_str())?;
    }
    Ok(())
}

/// What each of them is given, as text.
pub fn given(alloc: Global) -> Result<String> {
    let mut text = String::new(alloc);
    text.push_str("{")?;
    for i in 0..100 {
        if 0 < i {
            text.push_str(",")?;
        }
        let (_, words) = SORTS[i % 5];
        text.push_str(format!(in alloc; "\"p{i:02}\":{words}")?.as_str())?;
    }
    text.push_str("}")?;
    Ok(text)
}
