//! The lines of row writes, and of a stack's rows.
ghost use Rattle.std.specs.Prelude.{◌≡◌, IfOk, option_map, string_bytes};
ghost use Rattle.report.specs.Rows.{row_line, is_init, stands_alike, is_told, set_text, purge_text, shown_head};
ghost use Rattle.report.specs.Rows.{id_word, shown_tail, shown_line, shown_lines};

use crate::brief::SeenRow;
use crate::words::{act_word, number_word, status_word};
use heat_plan::{Act, Facts, StackName, Status};
use std::alloc::{AllocError, Global};

// The line of a row's write: its resource, with an act and a status.
fn row_line(alloc: Global, row: &SeenRow, act: Act, status: Status) -> Result<String, AllocError>
    ensures { IfOk result (λ s. string_bytes s ≡ row_line row.now act status) }
{
    format!(in alloc;
        "resource {} {} {} {}_{}\n",
        row.stack.as_str(),
        row.name.as_str(),
        row.no.get(),
        act_word(act),
        status_word(status)
    )
}

// Whether nothing was done on the row.
fn is_init(act: Act) -> bool
    ensures { result ≡ is_init act }
{
    matches!(act, Act::Init)
}

// Whether a row stands as it stood, by its words.
fn stands_alike(old: &SeenRow, new: &SeenRow) -> bool
    ensures { result ≡ stands_alike old.now new.now }
{
    act_word(old.act) == act_word(new.act) && status_word(old.status) == status_word(new.status)
}

// Whether a row that was set is told.
fn is_told(old: Option<&SeenRow>, row: &SeenRow) -> bool
    ensures { result ≡ is_told (option_map (λ r. r.now) old.entry) row.now }
{
    match old {
        Some(old) => !stands_alike(old, row),
        None => !is_init(row.act),
    }
}

/// The line of a row that was set, given what was seen of it before.
pub(crate) fn set_text(
    alloc: Global,
    old: Option<&SeenRow>,
    row: &SeenRow,
) -> Result<String, AllocError>
    ensures { IfOk result (λ s. string_bytes s ≡ set_text (option_map (λ r. r.now) old.entry) row.now) }
{
    if is_told(old, row) {
        row_line(alloc, row, row.act, row.status)
    } else {
        Ok(String::new(alloc))
    }
}

/// The line of a row that is gone, given what was seen of it before.
pub(crate) fn purge_text(alloc: Global, old: Option<&SeenRow>) -> Result<String, AllocError>
    ensures { IfOk result (λ s. string_bytes s ≡ purge_text (option_map (λ r. r.now) old.entry)) }
{
    match old {
        Some(row) => row_line(alloc, row, Act::Delete, Status::Complete),
        None => Ok(String::new(alloc)),
    }
}

// The id among a row's facts, or a dash.
fn id_word(facts: &Option<Facts>) -> &str
    ensures { result.now ≡ id_word facts.now }
{
    match facts {
        Some(facts) => facts.id.as_str(),
        None => "-",
    }
}

// What a listed row is, and how it stands.
fn shown_head(alloc: Global, row: &SeenRow) -> Result<String, AllocError>
    ensures { IfOk result (λ s. string_bytes s ≡ shown_head row.now) }
{
    format!(in alloc;
        "row {} {} {} {}_{}",
        row.no.get(),
        row.name.as_str(),
        row.kind.as_str(),
        act_word(row.act),
        status_word(row.status)
    )
}

// A listed row's id, and its links to the rows before and behind it.
fn shown_tail(alloc: Global, row: &SeenRow) -> Result<String, AllocError>
    ensures { IfOk result (λ s. string_bytes s ≡ shown_tail row.now) }
{
    let replaces = number_word(alloc, row.replaces)?;
    let replaced_by = number_word(alloc, row.replaced_by)?;
    format!(in alloc;
        "id {} replaces {} replaced_by {}\n",
        id_word(&row.facts),
        replaces.as_str(),
        replaced_by.as_str()
    )
}

// A row in a listing.
fn shown_line(alloc: Global, row: &SeenRow) -> Result<String, AllocError>
    ensures { IfOk result (λ s. string_bytes s ≡ shown_line row.now) }
{
    let head = shown_head(alloc, row)?;
    let tail = shown_tail(alloc, row)?;
    format!(in alloc; "{} {}", head.as_str(), tail.as_str())
}

/// A line for each row of a stack.
pub(crate) fn shown_lines(
    alloc: Global,
    stack: &StackName,
    rows: &[SeenRow],
) -> Result<String, AllocError>
    ensures { IfOk result (λ s. string_bytes s ≡ shown_lines stack.now rows.now) }
{
    let mut text = String::new(alloc);
    for row in rows {
        if row.stack == *stack {
            text.push_str(&shown_line(alloc, row)?)?;
        }
    }
    Ok(text)
}
