//! The lines of a preview.
ghost use Rattle.std.specs.Prelude.{◌≡◌, IfOk, string_bytes};
ghost use Rattle.report.specs.Previews.{fore_text, foretold_lines, going_lines, going_word, preview_line};
ghost use Rattle.report.specs.Previews.{preview_text};

use core_state::{Fore, Forecast, Foretold, Going};
use heat_plan::{Policy, ResName, StackName};
use std::alloc::{AllocError, Global};

// What an update would do with a resource of its plan.
fn fore_text(alloc: Global, fore: &Fore) -> Result<String, AllocError>
    ensures { IfOk result (λ s. string_bytes s ≡ fore_text fore.now) }
{
    match fore {
        Fore::Keep => String::from_str(alloc, "keep"),
        Fore::InPlace => String::from_str(alloc, "update"),
        Fore::Replace => String::from_str(alloc, "replace"),
        Fore::Create => String::from_str(alloc, "create"),
        Fore::Unsure => String::from_str(alloc, "unsure"),
        Fore::Fault(code, path) => {
            let place = path.text(alloc)?;
            format!(in alloc; "fault {} {}", code.as_str(), place.as_str())
        }
    }
}

// What it would do with a row whose name the plan doesn't have.
fn going_word(policy: Policy) -> &'static str
    ensures { result.now ≡ going_word policy }
{
    match policy {
        Policy::Delete => "remove",
        Policy::Retain => "release",
    }
}

// The line of one resource, or of one row.
fn preview_line(
    alloc: Global,
    stack: &StackName,
    name: &ResName,
    word: &str,
) -> Result<String, AllocError>
    ensures { IfOk result (λ s. string_bytes s ≡ preview_line stack.now name.now word.now) }
{
    format!(in alloc; "preview {} {} {}\n", stack.as_str(), name.as_str(), word)
}

// A line for each resource of the plan.
fn foretold_lines(
    alloc: Global,
    stack: &StackName,
    items: &[Foretold],
) -> Result<String, AllocError>
    ensures { IfOk result (λ s. string_bytes s ≡ foretold_lines stack.now items.now) }
{
    let mut text = String::new(alloc);
    for item in items {
        let word = fore_text(alloc, &item.fore)?;
        text.push_str(&preview_line(alloc, stack, &item.name, word.as_str())?)?;
    }
    Ok(text)
}

// A line for each row whose name the plan doesn't have.
fn going_lines(alloc: Global, stack: &StackName, gone: &[Going]) -> Result<String, AllocError>
    ensures { IfOk result (λ s. string_bytes s ≡ going_lines stack.now gone.now) }
{
    let mut text = String::new(alloc);
    for row in gone {
        text.push_str(&preview_line(alloc, stack, &row.name, going_word(row.policy))?)?;
    }
    Ok(text)
}

/// What an update of a stack would do, line by line.
pub(crate) fn preview_text(
    alloc: Global,
    stack: &StackName,
    forecast: &Forecast,
) -> Result<String, AllocError>
    ensures { IfOk result (λ s. string_bytes s ≡ preview_text stack.now forecast.now) }
{
    let mut text = foretold_lines(alloc, stack, forecast.items.as_slice())?;
    text.push_str(&going_lines(alloc, stack, forecast.gone.as_slice())?)?;
    Ok(text)
}
