//! The usage text of the program: what it does, then each form of its words with its options, rendered by
//! `clap`. The words themselves are read elsewhere, and no clause rests on this text.
#![tactic(auto)]

mod forms;
#[cfg(test)]
mod tests;

use clap::Command;
use forms::drive;
use std::alloc::{AllocError, Global};

// What stands in front of all forms.
const WHAT_IT_DOES: &str =
    "Takes stacks of resources to their HOT templates, over a simulated cloud.
";

// What stands behind them.
const WHERE_MORE_STANDS: &str = "
Status 0 says that the script was read to its end, and that all is written. README.md, under \"Use\",
says what the other statuses mean, and what each line of a script does.
";

/// What the program does, each form of its words, and where more of it stands; an LF ends it.
pub fn usage(alloc: Global) -> Result<String, AllocError> {
    let mut text = String::from_str(alloc, WHAT_IT_DOES)?;
    push_form(&mut text, drive(alloc)?)?;
    text.push_str(WHERE_MORE_STANDS)?;
    Ok(text)
}

// Puts one form behind the text so far, and an empty line between them.
fn push_form(text: &mut String, mut form: Command<'_>) -> Result<(), AllocError> {
    text.push_str("\n")?;
    text.push_str(&form.render_help()?)
}
