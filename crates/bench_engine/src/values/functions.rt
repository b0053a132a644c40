//! Functions of many parts, as texts.

use anyhow::{Result, bail};
use std::alloc::Global;

// What each key begins with that is replaced.
const PREFIX: &str = "aaaaaaaaaaaaaaaaaaaaaaaaaaaaaaaaaaaaaaaaaaaaaaaa";

/// A function and what it has many of.
#[derive(Clone, Copy, Debug, PartialEq, Eq)]
pub enum Call {
    /// Two lists of the same numbers, in falling order, are joined without repeats.
    Unique,
    /// The one of them is filtered by the other.
    Filter,
    /// Maps of one key are merged, in falling order of their keys.
    Merge,
    /// The keys of a map are replaced by such as fall.
    Rename,
    /// Keys with a common beginning are replaced in a text of them all.
    Replace,
    /// The same by `str_replace_strict`.
    Strict,
    /// The same by one choice of a `repeat`.
    Fill,
}

/// The function that a word means.
pub fn call_of(word: &str) -> Result<Call> {
    match word {
        "unique" => Ok(Call::Unique),
        "filter" => Ok(Call::Filter),
        "merge" => Ok(Call::Merge),
        "rename" => Ok(Call::Rename),
        "replace" => Ok(Call::Replace),
        "strict" => Ok(Call::Strict),
        "fill" => Ok(Call::Fill),
        _ => bail!("unique, filter, merge, rename, replace, strict or fill"),
    }
}

impl Call {
    /// Puts the function with so many parts behind the text.
    pub fn push(self, alloc: Global, text: &mut String, size: u32) -> Result<()> {
        match self {
            Call::Unique => push_lists(alloc, text, "list_concat_unique", size),
            Call::Filter => push_lists(alloc, text, "filter", size),
            Call::Merge => push_merge(alloc, text, size),
            Call::Rename => push_rename(alloc, text, size),
            Call::Replace => push_keys(alloc, text, &REPLACE, size),
            Call::Strict => push_keys(alloc, text, &STRICT, size),
            Call::Fill => push_keys(alloc, text, &FILL, size),
        }
    }
}

fn push_lists(alloc: Global, text: &mut String, function: &str, size: u32) -> Result<()> {
    text.push_str(format!(in alloc; "{{\"{function}\":[[0")?.as_str())?;
    push_numbers(alloc, text, size)?;
    text.push_str("],[0")?;
    push_numbers(alloc, text, size)?;
    text.push_str("]]}")?;
    Ok(())
}

fn push_numbers(alloc: Global, text: &mut String, size: u32) -> Result<()> {
    for i in 0..size {
        let number = size - i;
        text.push_str(format!(in alloc; ",{number}")?.as_str())?;
    }
    Ok(())
}

fn push_merge(alloc: Global, text: &mut String, size: u32) -> Result<()> {
    text.push_str("{\"map_merge\":[{}")?;
    for i in 0..size {
        let number = size - i;
        text.push_str(format!(in alloc; ",{{\"k{number:05}\":0}}")?.as_str())?;
    }
    text.push_str("]}")?;
    Ok(())
}

fn push_rename(alloc: Global, text: &mut String, size: u32) -> Result<()> {
    text.push_str("{\"map_replace\":[{\"k\":0")?;
    for i in 0..size {
        text.push_str(format!(in alloc; ",\"k{i:05}\":0")?.as_str())?;
    }
    text.push_str("},{\"keys\":{\"k\":\"n\"")?;
    for i in 0..size {
        let number = size - i;
        text.push_str(format!(in alloc; ",\"k{i:05}\":\"n{number:05}\"")?.as_str())?;
    }
    text.push_str("}}]}")?;
    Ok(())
}

// A function that replaces keys: its name, that of its keys, and what each of them is replaced by.
struct Filling {
    function: &'static str,
    keys: &'static str,
    behind: &'static str,
}

const REPLACE: Filling = Filling {
    function: "str_replace",
    keys: "params",
    behind: "\"x\"",
};

const STRICT: Filling = Filling {
    function: "str_replace_strict",
    keys: "params",
    behind: "\"x\"",
};

const FILL: Filling = Filling {
    function: "repeat",
    keys: "for_each",
    behind: "[\"x\"]",
};

// The keys, of which one is what all others begin with, and a text of them all.
fn push_keys(alloc: Global, text: &mut String, filling: &Filling, size: u32) -> Result<()> {
    let Filling {
        function,
        keys,
        behind,
    } = filling;
    text.push_str(format!(in alloc;
        "{{\"{function}\":{{\"{keys}\":{{\"{PREFIX}\":{behind}"
    )?.as_str())?;
    for i in 0..size {
        text.push_str(format!(in alloc; ",\"{PREFIX}{i:05}\":{behind}")?.as_str())?;
    }
    text.push_str("},\"template\":\"")?;
    push_written(alloc, text, size)?;
    text.push_str("\"}}")?;
    Ok(())
}

// Each key behind what all begin with and a letter more.
fn push_written(alloc: Global, text: &mut String, size: u32) -> Result<()> {
    for i in 0..size {
        text.push_str(format!(in alloc; "{PREFIX}a{PREFIX}{i:05}")?.as_str())?;
    }
    Ok(())
}
