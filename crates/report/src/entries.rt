//! The lines of the entries that write no row.
ghost use Rattle.std.specs.Prelude.{◌≡◌, ℕ, List, IfOk, Option, option_map, string_bytes};
ghost use Rattle.report.specs.Words.{why_text};
ghost use Rattle.report.specs.Entries.{stack_words, stack_line, command_line, failed_line, cause_line, mark_line};
ghost use Rattle.report.specs.Entries.{released_line, engine_line, ran_line, turned_line, note_line, status_text};
ghost use Rattle.report.specs.Entries.{show_text, line_of};
ghost use Rattle.report.specs.Undone.{shown as shown_of};

use crate::brief::SeenStack;
use crate::outputs::outputs_text;
use crate::previews::preview_text;
use crate::rows::shown_lines;
use crate::seen::Seen;
use crate::words::{act_word, status_word, why_text};
use core_state::{Cause, EngineChange, ShowWhat, What};
use heat_plan::{Act, EngineNo, StackName, Status, Token, TravNo};
use heat_value::{Path, Text};
use std::alloc::{AllocError, Global};

// What a stack's line begins with: its name, its traversal, an act and a status.
fn stack_words(
    alloc: Global,
    stack: &StackName,
    trav: TravNo,
    act: Act,
    status: Status,
) -> Result<String, AllocError>
    ensures { IfOk result (λ s. string_bytes s ≡ stack_words stack.now trav act status) }
{
    format!(in alloc;
        "stack {} {} {}_{}",
        stack.as_str(),
        trav.get(),
        act_word(act),
        status_word(status)
    )
}

// A line that says no more of a stack than that.
fn stack_line(
    alloc: Global,
    stack: &StackName,
    trav: TravNo,
    act: Act,
    status: Status,
) -> Result<String, AllocError>
    ensures { IfOk result (λ s. string_bytes s ≡ stack_line stack.now trav act status) }
{
    let words = stack_words(alloc, stack, trav, act, status)?;
    format!(in alloc; "{}\n", words.as_str())
}

// The line of a command, whose traversal is in progress.
fn command_line(
    alloc: Global,
    stack: &StackName,
    trav: TravNo,
    act: Act,
) -> Result<String, AllocError>
    ensures { IfOk result (λ s. string_bytes s ≡ command_line stack.now trav act) }
{
    stack_line(alloc, stack, trav, act, Status::InProgress)
}

// The line of a failure, its cause behind the stack.
fn failed_line(
    alloc: Global,
    stack: &StackName,
    trav: TravNo,
    act: Act,
    cause: &Cause,
) -> Result<String, AllocError>
    ensures { IfOk result (λ s. string_bytes s ≡ failed_line stack.now trav act cause.now) }
{
    let head = stack_words(alloc, stack, trav, act, Status::Failed)?;
    let tail = cause_line(alloc, cause)?;
    format!(in alloc; "{} {}", head.as_str(), tail.as_str())
}

// A failure's item, row and reason, up to the end of the line.
fn cause_line(alloc: Global, cause: &Cause) -> Result<String, AllocError>
    ensures { IfOk result (λ s. string_bytes s ≡ cause_line cause.now) }
{
    let why = why_text(alloc, &cause.why)?;
    format!(in alloc;
        "{} {} {}\n",
        cause.name.as_str(),
        cause.row.get(),
        why.as_str()
    )
}

// The line of a mark: complete, or failed with its cause.
fn mark_line(
    alloc: Global,
    stack: &StackName,
    trav: TravNo,
    act: Act,
    cause: &Option<Cause>,
) -> Result<String, AllocError>
    ensures { IfOk result (λ s. string_bytes s ≡ mark_line stack.now trav act cause.now) }
{
    match cause {
        None => stack_line(alloc, stack, trav, act, Status::Complete),
        Some(cause) => failed_line(alloc, stack, trav, act, cause),
    }
}

// The line of a token that the engine gave up.
fn released_line(alloc: Global, token: &Token) -> Result<String, AllocError>
    ensures { IfOk result (λ s. string_bytes s ≡ released_line token.now) }
{
    let text = token.text(alloc)?;
    format!(in alloc; "released {}\n", text.as_str())
}

// The line of an engine that was started or stopped, or of a restart.
fn engine_line(alloc: Global, change: EngineChange) -> Result<String, AllocError>
    ensures { IfOk result (λ s. string_bytes s ≡ engine_line change) }
{
    match change {
        EngineChange::Start(engine) => format!(in alloc; "engine {} started\n", engine.get()),
        EngineChange::Stop(engine) => format!(in alloc; "engine {} stopped\n", engine.get()),
        EngineChange::Restart(engine, _) => format!(in alloc; "restart {}\n", engine.get()),
    }
}

// The line of a run: whether it ended idle, and after how many turns.
fn ran_line(alloc: Global, idle: bool, turns: u128) -> Result<String, AllocError>
    ensures { IfOk result (λ s. string_bytes s ≡ ran_line idle turns) }
{
    if idle {
        format!(in alloc; "idle {}\n", turns)
    } else {
        format!(in alloc; "tired {}\n", turns)
    }
}

// The line of a turn that wasn't to be: the engine is stopped, or has nothing to do.
fn turned_line(alloc: Global, engine: EngineNo, lost: bool) -> Result<String, AllocError>
    ensures { IfOk result (λ s. string_bytes s ≡ turned_line engine lost) }
{
    if lost {
        format!(in alloc; "engine {} lost\n", engine.get())
    } else {
        format!(in alloc; "engine {} idle\n", engine.get())
    }
}

// The line of a refusal: which line of the script, why, and where in it.
fn note_line(
    alloc: Global,
    line: u64,
    code: &Text,
    path: &Option<Path>,
) -> Result<String, AllocError>
    ensures { IfOk result (λ s. string_bytes s ≡ note_line line code.now path.now) }
{
    match path {
        None => format!(in alloc; "refused {} {}\n", line, code.as_str()),
        Some(path) => {
            let place = path.text(alloc)?;
            format!(in alloc; "refused {} {} {}\n", line, code.as_str(), place.as_str())
        }
    }
}

// How a stack stands; nothing where it isn't seen.
fn status_text(alloc: Global, stack: Option<&SeenStack>) -> Result<String, AllocError>
    ensures { IfOk result (λ s. string_bytes s
        ≡ status_text (option_map (λ k. k.now) stack.entry)) }
{
    match stack {
        Some(stack) => stack_line(alloc, &stack.name, stack.trav, stack.act, stack.status),
        None => Ok(String::new(alloc)),
    }
}

// What a listing shows of a stack: how it stands, its rows, its outputs.
fn show_text(
    alloc: Global,
    shown: ShowWhat,
    stack: &StackName,
    seen: &Seen,
) -> Result<String, AllocError>
    ensures { IfOk result (λ s. string_bytes s ≡ show_text shown stack.now (shown_of seen.now)) }
{
    match shown {
        ShowWhat::Status => status_text(alloc, seen.stacks.get(stack)),
        ShowWhat::Resources => shown_lines(alloc, stack, seen.rows.as_slice()),
        ShowWhat::Outputs => outputs_text(
            alloc,
            stack,
            seen.stacks.get(stack),
            seen.rows.as_slice(),
        ),
    }
}

/// The line of an entry that writes no row.
pub(crate) fn entry_line(alloc: Global, seen: &Seen, what: &What) -> Result<String, AllocError>
    ensures { IfOk result (λ s. string_bytes s ≡ line_of (shown_of seen.now) what.now) }
{
    match what {
        What::Command {
            stack,
            trav,
            act,
            ..
        } => command_line(alloc, stack, *trav, *act),
        What::Release { token } => released_line(alloc, token),
        What::Mark {
            stack,
            trav,
            act,
            cause,
        } => mark_line(alloc, stack, *trav, *act, cause),
        What::Engine { change } => engine_line(alloc, *change),
        What::Show { what, stack } => show_text(alloc, *what, stack, seen),
        What::Note { line, code, path } => note_line(alloc, *line, code, path),
        What::Ran { idle, turns } => ran_line(alloc, *idle, *turns),
        What::Turned { engine, lost } => turned_line(alloc, *engine, *lost),
        What::Preview { stack, forecast } => preview_text(alloc, stack, forecast),
        What::Call { .. } | What::Rows { .. } | What::Mail { .. } | What::Closed => {
            Ok(String::new(alloc))
        }
    }
}
