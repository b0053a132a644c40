//! Payloads: lists of changes and nothing more.
ghost use Rattle.std.specs.Prelude.{◌≡◌, ◌<◌, ◌≤◌, ◌-◌, ◌^◌, IfOk, IfSome, IsNone, List, ℕ, All, length, min};
ghost use Rattle.core_state.specs.declared.change.Change.{Change as change_type};
ghost use Rattle.plan_codec.specs.Sheets.{behind};
ghost use Rattle.row_codec.specs.Changes.{spelled, AreProper, IsSpelling, IsStorable};

use crate::change_puts::put_change;
use crate::change_reads::changes_at;
use core_state::{Change, Ready};
use plan_codec::{Sheet, Unread, put_number};
use std::alloc::{AllocError, Global};

/// The changes that the bytes are the spelling of; none where they are the spelling of none.
pub fn read(alloc: Global, bytes: &[u8]) -> Result<Option<Vec<Change>>, AllocError>
    ensures some { IfOk result (λ o. IfSome o (λ v. IsSpelling bytes.now v.items)) }
    ensures none { IfOk result (λ o. IsNone o → (cs : List change_type) → ¬ IsSpelling bytes.now cs) }
{
    match changes_at(alloc, bytes) {
        Ok((changes, rest)) => Ok(whole(changes, rest)),
        Err(why) => nothing_read(why),
    }
}

// The changes that were read, where nothing is left behind them.
fn whole(changes: Vec<Change>, rest: &[u8]) -> Option<Vec<Change>>
    ensures some { IfSome result (λ v. (v.items ≡ changes.items) × (length rest.now ≡ 0)) }
    ensures none { IsNone result → 0 < length rest.now }
{
    if rest.len() > 0 {
        return None;
    }
    Some(changes)
}

// What there is where no changes were read.
fn nothing_read(why: Unread) -> Result<Option<Vec<Change>>, AllocError>
    ensures { IfOk result (λ o. IsNone o × (why ≡ Unread.Unspelled)) }
{
    match why {
        Unread::Memory => Err(AllocError),
        Unread::Unspelled => Ok(None),
    }
}

/// How many bytes the spelling of the changes has; 2^64 - 1 where it has more. It takes no memory.
pub fn size(alloc: Global, changes: &[Ready]) -> usize
    ensures { result ≡ min (length (spelled changes.now)) (2 ^ 64 - 1) }
{
    let mut sheet = Sheet::new(alloc);
    put_changes(changes, &mut sheet);
    sheet.count()
}

/// Writes the spelling of the changes on the sheet, in the place of what stood there. It takes no memory.
pub fn fill(changes: &[Ready], sheet: &mut Sheet)
    requires { length (spelled changes.now) ≤ sheet.old.room }
    ensures bytes { sheet.new.kept ≡ spelled changes.now }
    ensures room { sheet.new.room ≡ sheet.old.room }
    ensures proper { All IsStorable changes.now → IsSpelling sheet.new.kept changes.now }
{
    sheet.clear();
    put_changes(changes, sheet);
}

/// The spelling of the changes, on a sheet of its own.
pub fn write(alloc: Global, changes: &[Ready]) -> Result<Sheet, AllocError>
    ensures bytes { IfOk result (λ s. s.kept ≡ spelled changes.now) }
    ensures proper { IfOk result (λ s. All IsStorable changes.now → IsSpelling s.kept changes.now) }
{
    let size = size(alloc, changes);
    if size == usize::MAX {
        return Err(AllocError);
    }
    let mut sheet = Sheet::new(alloc);
    sheet.reserve(size)?;
    fill(changes, &mut sheet);
    Ok(sheet)
}

// Puts how many changes there are, and each.
fn put_changes(changes: &[Ready], sheet: &mut Sheet)
    ensures bytes { sheet.new ≡ behind sheet.old (spelled changes.now) }
    ensures proper { All IsStorable changes.now → AreProper changes.now }
{
    put_number(changes.len() as u64, sheet);
    for ready in changes {
        put_change(ready.change(), sheet);
    }
}
