//! Fifty named conditions: every other one reads a parameter and holds, and each of the others denies the one
//! before it. And two chains of conditions: one in which each denies the one before it, and one in which each reads
//! the one behind it by a name that a `repeat` makes.

use anyhow::Result;
use std::alloc::Global;

/// How many conditions there are.
pub const COUNT: u32 = 50;

// What stands before and behind the names that a condition reads.
const READS: &str = "{\"equals\":[{\"repeat\":{\"for_each\":{\"z\":[";

const READ: &str = "]},\"template\":{\"if\":[\"z\",1,2]}}},[]]}";

/// Puts the conditions behind the text, `c00` to `c49`.
pub fn push_conditions(alloc: Global, text: &mut String) -> Result<()> {
    for i in 0..COUNT {
        if 0 < i {
            text.push_str(",")?;
        }
        push_condition(alloc, text, i)?;
    }
    Ok(())
}

fn push_condition(alloc: Global, text: &mut String, i: u32) -> Result<()> {
    if i % 2 == 1 {
        let denied = i - 1;
        text.push_str(format!(in alloc; "\"c{i:02}\":{{\"not\":\"c{denied:02}\"}}")?.as_str())?;
        return Ok(());
    }
    let read = i / 5 * 5;
    text.push_str(format!(in alloc;
        "\"c{i:02}\":{{\"equals\":[{{\"get_param\":\"p{read:02}\"}},\"debian-12\"]}}"
    )?.as_str())?;
    Ok(())
}

/// Puts a chain of so many conditions behind the text, `c000000` and on.
pub fn push_chain(alloc: Global, text: &mut String, size: u32) -> Result<()> {
    text.push_str("\"c000000\":{\"equals\":[1,1]}")?;
    for i in 1..size {
        let denied = i - 1;
        text.push_str(format!(in alloc; ",\"c{i:06}\":{{\"not\":\"c{denied:06}\"}}")?.as_str())?;
    }
    Ok(())
}

/// Puts a chain of conditions behind the text, so many that each read the one behind it, and one that reads none.
/// In front of it comes one that reads all from the last on, and behind it the one whose name is written in all of
/// these; a `repeat` makes the other names of it.
pub fn push_made_chain(alloc: Global, text: &mut String, size: u32) -> Result<()> {
    push_all_reader(alloc, text, size)?;
    for i in 0..size {
        let behind = i + 1;
        text.push_str(format!(in alloc; ",\"c{i:06}\":")?.as_str())?;
        text.push_str(READS)?;
        text.push_str(format!(in alloc; "\"c{behind:06}\"")?.as_str())?;
        text.push_str(READ)?;
    }
    text.push_str(format!(in alloc; ",\"c{size:06}\":{{\"equals\":[1,1]}}")?.as_str())?;
    text.push_str(",\"z\":{\"equals\":[1,1]}")?;
    Ok(())
}

fn push_all_reader(alloc: Global, text: &mut String, size: u32) -> Result<()> {
    text.push_str("\"a\":")?;
    text.push_str(READS)?;
    for i in 0..size {
        let place = size - i;
        text.push_str(format!(in alloc; "\"c{place:06}\",")?.as_str())?;
    }
    text.push_str("\"c000000\"")?;
    text.push_str(READ)?;
    Ok(())
}
