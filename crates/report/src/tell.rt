//! The text that entries add, each with what was seen before it. What is written meanwhile can be taken back.
ghost use Rattle.std.specs.Prelude.{◌≡◌, ◌++◌, IfOk, OnOk, string_bytes};
ghost use Rattle.std.specs.Ordering.{nat_cmp};
ghost use Rattle.std.specs.Cmp.Lexicographic.{slice_cmp};
ghost use Rattle.keyed_table.specs.Lists.{put};
ghost use Rattle.report.specs.Seen.{after_write, after_writes, stack_key, with_stacks};
ghost use Rattle.report.specs.Rows.{write_text, writes_text};
ghost use Rattle.report.specs.Stacks.{after_mark};
ghost use Rattle.report.specs.Entries.{what_text, after_what};
ghost use Rattle.report.specs.Text.{seen_after, told};
ghost use Rattle.report.specs.Undone.{shown, unwound, CanUnwind};

use crate::brief::{SeenRow, SeenStack};
use crate::entries::entry_line;
use crate::log::Log;
use crate::rows::{purge_text, set_text};
use crate::seen::Seen;
use crate::stacks::is_gone;
use core_state::{Cause, Entry, Row, RowWrite, What};
use heat_plan::{Act, RowNo, StackName, TravNo};
use heat_value::TryCopy;
use std::alloc::{AllocError, Global};

/// The text of entries.
pub(crate) fn tell(
    alloc: Global,
    seen: &mut Seen,
    log: &mut Log,
    entries: &[Entry],
) -> Result<String, AllocError>
    requires back { CanUnwind log.old seen.old }
    ensures text { IfOk result (λ s. string_bytes s ≡ told (shown seen.old) entries.now) }
    ensures seen { OnOk result (shown seen.new ≡ seen_after (shown seen.old) entries.now) }
    ensures undone { unwound log.new.items (shown seen.new) ≡ unwound log.old.items (shown seen.old) }
    ensures back { CanUnwind log.new seen.new }
{
    let mut text = String::new(alloc);
    for entry in entries {
        tell_entry(alloc, &mut text, seen, log, &entry.what)?;
    }
    Ok(text)
}

// The text that one entry adds; what it shows is seen from then on.
fn tell_entry(
    alloc: Global,
    text: &mut String,
    seen: &mut Seen,
    log: &mut Log,
    what: &What,
) -> Result<(), AllocError>
    requires back { CanUnwind log.old seen.old }
    ensures text { OnOk result
        (string_bytes text.new ≡ string_bytes text.old ++ what_text (shown seen.old) what.now) }
    ensures seen { OnOk result (shown seen.new ≡ after_what (shown seen.old) what.now) }
    ensures undone { unwound log.new.items (shown seen.new) ≡ unwound log.old.items (shown seen.old) }
    ensures back { CanUnwind log.new seen.new }
{
    text.push_str(&entry_line(alloc, seen, what)?)?;
    match what {
        What::Command {
            stack,
            trav,
            act,
            plan,
            ..
        } => {
            let stack = SeenStack::begun(alloc, stack, *trav, *act, plan)?;
            see_stack(seen, log, stack)
        }
        What::Mark {
            stack,
            trav,
            act,
            cause,
        } => see_mark(seen, log, stack, *trav, *act, cause),
        What::Rows { writes } => tell_writes(alloc, text, seen, log, writes.as_slice()),
        What::Call { .. } | What::Release { .. } | What::Mail { .. } | What::Engine { .. } => {
            Ok(())
        }
        What::Show { .. } | What::Note { .. } | What::Ran { .. } | What::Turned { .. } => Ok(()),
        What::Preview { .. } | What::Closed => Ok(()),
    }
}

// Sees a stack.
fn see_stack(seen: &mut Seen, log: &mut Log, stack: SeenStack) -> Result<(), AllocError>
    requires back { CanUnwind log.old seen.old }
    ensures seen { OnOk result (shown seen.new ≡ with_stacks (shown seen.old)
        (put (slice_cmp nat_cmp) stack_key stack seen.old.stacks.items)) }
    ensures undone { unwound log.new.items (shown seen.new) ≡ unwound log.old.items (shown seen.old) }
    ensures back { CanUnwind log.new seen.new }
{
    let name = stack.name.copy()?;
    seen.reserve(log)?;
    seen.put_stack(log, name, stack);
    Ok(())
}

// Sees a mark.
fn see_mark(
    seen: &mut Seen,
    log: &mut Log,
    name: &StackName,
    trav: TravNo,
    act: Act,
    cause: &Option<Cause>,
) -> Result<(), AllocError>
    requires back { CanUnwind log.old seen.old }
    ensures seen { OnOk result (shown seen.new ≡ with_stacks (shown seen.old)
        (after_mark name.now trav act cause.now seen.old.stacks.items)) }
    ensures undone { unwound log.new.items (shown seen.new) ≡ unwound log.old.items (shown seen.old) }
    ensures back { CanUnwind log.new seen.new }
{
    if is_gone(act, cause) {
        let name = name.copy()?;
        seen.reserve(log)?;
        seen.cut_stack(log, name);
        return Ok(());
    }
    let stack = SeenStack::marked(name, trav, act, cause, seen.stacks.get(name))?;
    see_stack(seen, log, stack)
}

// Each write sees those before it.
fn tell_writes(
    alloc: Global,
    text: &mut String,
    seen: &mut Seen,
    log: &mut Log,
    writes: &[RowWrite],
) -> Result<(), AllocError>
    requires back { CanUnwind log.old seen.old }
    ensures text { OnOk result
        (string_bytes text.new ≡ string_bytes text.old ++ writes_text (shown seen.old) writes.now) }
    ensures seen { OnOk result (shown seen.new ≡ after_writes (shown seen.old) writes.now) }
    ensures undone { unwound log.new.items (shown seen.new) ≡ unwound log.old.items (shown seen.old) }
    ensures back { CanUnwind log.new seen.new }
{
    for write in writes {
        tell_write(alloc, text, seen, log, write)?;
    }
    Ok(())
}

// The line that a row's write adds; the write is seen from then on.
fn tell_write(
    alloc: Global,
    text: &mut String,
    seen: &mut Seen,
    log: &mut Log,
    write: &RowWrite,
) -> Result<(), AllocError>
    requires back { CanUnwind log.old seen.old }
    ensures text { OnOk result
        (string_bytes text.new ≡ string_bytes text.old ++ write_text (shown seen.old) write.now) }
    ensures seen { OnOk result (shown seen.new ≡ after_write (shown seen.old) write.now) }
    ensures undone { unwound log.new.items (shown seen.new) ≡ unwound log.old.items (shown seen.old) }
    ensures back { CanUnwind log.new seen.new }
{
    match write {
        RowWrite::Set(row) => tell_set(alloc, text, seen, log, row),
        RowWrite::Purge(no) => tell_purge(alloc, text, seen, log, *no),
    }
}

// The line of a row that was put, where it tells one; the row is then seen.
fn tell_set(
    alloc: Global,
    text: &mut String,
    seen: &mut Seen,
    log: &mut Log,
    row: &Row,
) -> Result<(), AllocError>
    requires back { CanUnwind log.old seen.old }
    ensures text { OnOk result (string_bytes text.new
        ≡ string_bytes text.old ++ write_text (shown seen.old) (RowWrite.Set row.now)) }
    ensures seen { OnOk result
        (shown seen.new ≡ after_write (shown seen.old) (RowWrite.Set row.now)) }
    ensures undone { unwound log.new.items (shown seen.new) ≡ unwound log.old.items (shown seen.old) }
    ensures back { CanUnwind log.new seen.new }
{
    let row = SeenRow::of(row)?;
    let line = set_text(alloc, seen.rows.get(&row.no), &row)?;
    text.push_str(&line)?;
    seen.reserve(log)?;
    seen.put_row(log, row);
    Ok(())
}

// The line of a row that was purged, where it was seen; it is seen no more.
fn tell_purge(
    alloc: Global,
    text: &mut String,
    seen: &mut Seen,
    log: &mut Log,
    no: RowNo,
) -> Result<(), AllocError>
    requires back { CanUnwind log.old seen.old }
    ensures text { OnOk result (string_bytes text.new
        ≡ string_bytes text.old ++ write_text (shown seen.old) (RowWrite.Purge no)) }
    ensures seen { OnOk result (shown seen.new ≡ after_write (shown seen.old) (RowWrite.Purge no)) }
    ensures undone { unwound log.new.items (shown seen.new) ≡ unwound log.old.items (shown seen.old) }
    ensures back { CanUnwind log.new seen.new }
{
    let line = purge_text(alloc, seen.rows.get(&no))?;
    text.push_str(&line)?;
    seen.reserve(log)?;
    seen.cut_row(log, no);
    Ok(())
}
