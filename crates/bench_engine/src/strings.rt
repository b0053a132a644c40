//! Runs one text function on a large input and prints counts.

use anyhow::Result;
use heat_value::{Text, Value};
use hot_strings::{are_distinct, digest, is_digest_name, replace, split};
use std::alloc::Global;

// What is done, by its word.
enum Work {
    Empty,
    Replace,
    Keys,
    Split,
    Sha512,
}

/// The words are what to do (`empty`, `replace`, `keys`, `split` or `sha512`) and how many bytes to take.
pub fn run(rt: &HostRuntime, words: &[&str]) -> Result<()> {
    let work = work_of(words.first().copied().unwrap_or(""));
    let bytes = words.get(1).and_then(|word| word.parse::<usize>().ok());
    println!(rt; "{}", done(rt.alloc(), work, bytes.unwrap_or(0))?)?;
    Ok(())
}

fn work_of(word: &str) -> Work {
    match word {
        "replace" => Work::Replace,
        "keys" => Work::Keys,
        "split" => Work::Split,
        "sha512" => Work::Sha512,
        _ => Work::Empty,
    }
}

fn done(alloc: Global, work: Work, bytes: usize) -> Result<usize> {
    match work {
        Work::Empty => Ok(0),
        Work::Replace => replaced(
            alloc,
            &template(alloc, bytes)?,
            keys(alloc, 100)?.as_slice(),
        ),
        Work::Keys => many_replaced(alloc, bytes / 10),
        Work::Split => pieces(alloc, bytes),
        Work::Sha512 => digested(alloc, bytes),
    }
}

// The part again and again, `count` times.
fn repeated(alloc: Global, part: &str, count: usize) -> Result<Text> {
    let mut text = String::new(alloc);
    for _ in 0..count {
        text.push_str(part)?;
    }
    Ok(Text::from_string(text))
}

// So many keys `%00%`, `%01%`, .. with values that are shorter.
fn keys(alloc: Global, count: usize) -> Result<Vec<(Text, Text)>> {
    let mut params = Vec::new(alloc);
    for i in 0..count {
        let key = format!(in alloc; "%{i:02}%")?;
        let value = format!(in alloc; "v{i}")?;
        params.push((Text::from_string(key), Text::from_string(value)))?;
    }
    Ok(params)
}

// Text of ten bytes around each key, to the given length.
fn template(alloc: Global, bytes: usize) -> Result<Text> {
    let mut text = String::new(alloc);
    for i in 0..bytes / 10 {
        let key = i % 100;
        text.push_str(format!(in alloc; "text: %{key:02}%")?.as_str())?;
    }
    Ok(Text::from_string(text))
}

// A key of eight bytes; those of rising numbers rise.
fn numbered_key(alloc: Global, i: usize) -> Result<Text> {
    Ok(Text::from_string(format!(in alloc; "k{i:07}")?))
}

// So many such keys, with values that are shorter.
fn numbered(alloc: Global, count: usize) -> Result<Vec<(Text, Text)>> {
    let mut params = Vec::new(alloc);
    for i in 0..count {
        let value = format!(in alloc; "v{i}")?;
        params.push((numbered_key(alloc, i)?, Text::from_string(value)))?;
    }
    Ok(params)
}

// Text of ten bytes around each of so many such keys.
fn listed(alloc: Global, count: usize) -> Result<Text> {
    let mut text = String::new(alloc);
    for i in 0..count {
        text.push_str(numbered_key(alloc, i)?.as_str())?;
        text.push_str(", ")?;
    }
    Ok(Text::from_string(text))
}

// How long the template is with the values put in.
fn replaced(alloc: Global, template: &Text, params: &[(Text, Text)]) -> Result<usize> {
    if !are_distinct(params) {
        return Ok(0);
    }
    let text = replace(alloc, template, params, true)?;
    Ok(text.as_str().len())
}

// How long text with so many keys is with their values put in.
fn many_replaced(alloc: Global, count: usize) -> Result<usize> {
    let params = numbered(alloc, count)?;
    replaced(alloc, &listed(alloc, count)?, params.as_slice())
}

// How many pieces of nine bytes there are.
fn pieces(alloc: Global, bytes: usize) -> Result<usize> {
    let delimiter = Text::from_str(alloc, ",")?;
    let text = repeated(alloc, "123456789,", bytes / 10)?;
    match &split(alloc, &delimiter, &text, None)? {
        Value::Items(items) => Ok(items.as_slice().len()),
        _ => Ok(0),
    }
}

// How long the digest is.
fn digested(alloc: Global, bytes: usize) -> Result<usize> {
    let name = Text::from_str(alloc, "sha512")?;
    let text = repeated(alloc, "0123456789", bytes / 10)?;
    if !is_digest_name(&name) {
        return Ok(0);
    }
    Ok(digest(alloc, &name, &text)?.as_str().len())
}
