//! The words of a report's lines.
ghost use Rattle.std.specs.Prelude.{◌≡◌, ◌++◌, IfOk, Option, option_map, string_bytes, decimal};
ghost use Rattle.report.specs.Words.{act_word, status_word, tried_word, why_text};
ghost use Rattle.report.specs.Rows.{number_word};

use core_state::Why;
use heat_plan::{Act, RowNo, Status};
use std::alloc::{AllocError, Global};

/// An act, in capital letters.
pub(crate) fn act_word(act: Act) -> &'static str
    ensures { result.now ≡ act_word act }
{
    match act {
        Act::Init => "INIT",
        Act::Create => "CREATE",
        Act::Update => "UPDATE",
        Act::Delete => "DELETE",
        Act::Rollback => "ROLLBACK",
    }
}

/// A status, in capital letters.
pub(crate) fn status_word(status: Status) -> &'static str
    ensures { result.now ≡ status_word status }
{
    match status {
        Status::Complete => "COMPLETE",
        Status::InProgress => "IN_PROGRESS",
        Status::Failed => "FAILED",
    }
}

// What was tried and failed, in small letters.
fn tried_word(act: Act) -> &'static str
    ensures { result.now ≡ tried_word act }
{
    match act {
        Act::Init => "init",
        Act::Create => "create",
        Act::Update => "update",
        Act::Delete => "delete",
        Act::Rollback => "rollback",
    }
}

/// Why a traversal failed.
pub(crate) fn why_text(alloc: Global, why: &Why) -> Result<String, AllocError>
    ensures { IfOk result (λ s. string_bytes s ≡ why_text why.now) }
{
    match why {
        Why::Quota => String::from_str(alloc, "create quota"),
        Why::Failed(act) => format!(in alloc; "{} failed", tried_word(*act)),
        Why::Broken(act, code) => {
            format!(in alloc; "{} broken {}", tried_word(*act), code.as_str())
        }
        Why::Resolve(code, path) => {
            let place = path.text(alloc)?;
            format!(in alloc; "resolve {} {}", code.as_str(), place.as_str())
        }
    }
}

/// A row's number, or a dash.
pub(crate) fn number_word(alloc: Global, no: Option<RowNo>) -> Result<String, AllocError>
    ensures { IfOk result (λ s. string_bytes s ≡ number_word no) }
{
    match no {
        Some(no) => format!(in alloc; "{}", no.get()),
        None => String::from_str(alloc, "-"),
    }
}
