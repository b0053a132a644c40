//! Catalogues of many kinds, or of one kind with many attributes, and what they are answered with.

use crate::reading::read;
use anyhow::Result;
use hot_catalog::Catalog;
use std::alloc::Global;
use type_catalog::Registry;

/// A catalogue of so many kinds.
pub fn kinds(alloc: Global, size: u32) -> Result<String> {
    let mut text = String::from_str(alloc, "{\"K\":{}")?;
    for i in 1..size {
        text.push_str(format!(in alloc; ",\"k{i:05}\":{{}}")?.as_str())?;
    }
    text.push_str("}")?;
    Ok(text)
}

/// A catalogue of one kind with so many attributes, in falling order.
pub fn attributes(alloc: Global, size: u32) -> Result<String> {
    let mut text = String::from_str(alloc, "{\"K\":{\"attributes\":[\"z\"")?;
    for i in 1..size {
        let place = size - i;
        text.push_str(format!(in alloc; ",\"k{place:05}\"")?.as_str())?;
    }
    text.push_str("]}}")?;
    Ok(text)
}

/// What a catalogue is answered with: `taken`, or the code of its fault.
pub fn answer(alloc: Global, text: &str) -> Result<String> {
    let mut catalog = Catalog::new(alloc, &Registry::empty(alloc))?;
    let word = match catalog.read(alloc, &read(alloc, text)?) {
        Ok(()) => "taken",
        Err(fault) => fault.code().unwrap_or("no memory"),
    };
    Ok(String::from_str(alloc, word)?)
}
