//! What a step tells, a letter an entry.

use core_state::{Entry, What, Why};
use heat_plan::Refusal;
use std::alloc::{AllocError, Global};

/// The letters of entries.
pub(crate) fn letters(alloc: Global, entries: &[Entry]) -> Result<Vec<u8>, AllocError> {
    let mut text = Vec::new(alloc);
    for entry in entries {
        text.push(letter(&entry.what))?;
    }
    Ok(text)
}

/// The code of a refusal.
pub(crate) fn code(alloc: Global, refusal: Refusal) -> Result<Vec<u8>, AllocError> {
    let code = refusal.code().unwrap_or("-");
    Vec::from_slice(alloc, code.as_bytes())
}

// The letter of an entry; that of a mark with a cause says the cause.
fn letter(what: &What) -> u8 {
    match what {
        What::Command { .. } => b'c',
        What::Rows { .. } => b'r',
        What::Mail { .. } => b'm',
        What::Call { .. } => b'?',
        What::Mark { cause: None, .. } => b'+',
        What::Mark {
            cause: Some(cause),
            ..
        } => cause_letter(&cause.why),
        What::Release { .. } => b'l',
        What::Engine { .. } => b'e',
        _ => b'.',
    }
}

// The letter of a cause.
fn cause_letter(why: &Why) -> u8 {
    match why {
        Why::Quota => b'q',
        Why::Failed(_) => b'f',
        Why::Broken(_, _) => b'b',
        Why::Resolve(_, _) => b'v',
    }
}
