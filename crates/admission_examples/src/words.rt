//! A plan in words: its items, outputs, conditions, files, absent names, and the names of its parameters.
use heat_plan::{Condition, File, Item, Output, Plan, Policy, ResName};
use std::alloc::{AllocError, Global};

// An item's name and kind, what it needs, and `!` where it is kept.
fn add_item(item: &Item, words: &mut String) -> Result<(), AllocError> {
    words.push_str(item.name.as_str())?;
    words.push_str(":")?;
    words.push_str(item.kind.name.as_str())?;
    for need in item.needs.as_slice() {
        words.push_str("<")?;
        words.push_str(need.as_str())?;
    }
    if item.policy == Policy::Retain {
        words.push_str("!")?;
    }
    words.push_str(" ")
}

fn add_outputs(alloc: Global, outputs: &[Output], words: &mut String) -> Result<(), AllocError> {
    for output in outputs {
        let value = output.value.as_value().text(alloc)?;
        let text = format!(in alloc; "{}={} ", output.name.as_str(), value.as_str())?;
        words.push_str(text.as_str())?;
    }
    Ok(())
}

/// The conditions with their values.
pub(crate) fn add_conds(
    alloc: Global,
    conds: &[Condition],
    words: &mut String,
) -> Result<(), AllocError> {
    for cond in conds {
        let text = format!(in alloc; "{}?{} ", cond.name.as_str(), cond.value)?;
        words.push_str(text.as_str())?;
    }
    Ok(())
}

fn add_files(alloc: Global, files: &[File], words: &mut String) -> Result<(), AllocError> {
    for file in files {
        let text = format!(in alloc; "{}@{} ", file.name.as_str(), file.content.as_str())?;
        words.push_str(text.as_str())?;
    }
    Ok(())
}

fn add_absent(names: &[ResName], words: &mut String) -> Result<(), AllocError> {
    for name in names {
        words.push_str("-")?;
        words.push_str(name.as_str())?;
        words.push_str(" ")?;
    }
    Ok(())
}

fn add_plan(alloc: Global, plan: &Plan, words: &mut String) -> Result<(), AllocError> {
    for item in plan.items() {
        add_item(item, words)?;
    }
    add_outputs(alloc, plan.outputs(), words)?;
    add_conds(alloc, plan.conds().as_slice(), words)?;
    add_files(alloc, plan.files().as_slice(), words)?;
    add_absent(plan.absent(), words)
}

/// A plan's items, outputs, conditions, files, and absent names.
pub(crate) fn plan_words(alloc: Global, plan: &Plan) -> Result<String, AllocError> {
    let mut words = String::new(alloc);
    add_plan(alloc, plan, &mut words)?;
    words.replace(alloc, "\"", "'")
}

/// The same, and behind it the names of the parameters.
pub(crate) fn bound_plan_words(alloc: Global, plan: &Plan) -> Result<String, AllocError> {
    let mut words = plan_words(alloc, plan)?;
    for param in plan.params().as_props().as_slice() {
        words.push_str(param.key.as_str())?;
        words.push_str("! ")?;
    }
    Ok(words)
}
