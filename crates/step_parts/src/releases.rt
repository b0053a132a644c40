//! A job that is released: it ends, its row is unlocked, and whom the row kept waiting is told.
ghost use Rattle.std.specs.Prelude.{◌≡◌, ◌≤◌, ◌+◌, ◌^◌, ◌∷◌, IfOk, IfSome, length, map, option_map};
ghost use Rattle.core_state.specs.declared.entry.MailWrite.TheVariants.{Ended, Sent};
ghost use Rattle.step_relation.specs.Takes.{released_changes, released_entries};
ghost use Rattle.step_parts.specs.Rooms.{MayRise};

use crate::entries::{mail_entry, rows_entry};
use crate::letters::{draw_letters, sends};
use crate::lists::{with_first, with_last};
use crate::locks::{unlock, unlock_writes};
use core_state::{Actor, Batch, Change, Entry, Letter, MailWrite, Row, State};
use heat_plan::EngineNo;
use heat_value::{Seq, TryCopy};
use std::alloc::{AllocError, Global};

/// The job of the engine `of` ends, with these letters from the next number on.
pub fn released_changes(
    alloc: Global,
    s: &State,
    of: EngineNo,
    row: Option<&Row>,
    letters: &[Letter],
) -> Result<Batch<Change>, AllocError>
    requires key { IfSome row (λ r. MayRise r.now) }
    requires room { s.now.state.next.letter + length letters.now ≤ 2 ^ 62 }
    ensures { IfOk result (λ changes. changes ≡
        released_changes s.now.state of (option_map (λ r. r.now) row.entry) letters.now) }
{
    let rest = with_first(alloc, Change::EndJob(of), sends(alloc, letters)?)?;
    let rest = unlock(alloc, row, rest)?;
    draw_letters(alloc, s.next(), letters, rest)
}

/// What the engine `e` tells of it.
pub fn released_entries(
    alloc: Global,
    e: EngineNo,
    of: EngineNo,
    row: Option<&Row>,
    letters: &[Letter],
) -> Result<Batch<Entry>, AllocError>
    requires { IfSome row (λ r. MayRise r.now) }
    ensures { IfOk result (λ entries. entries ≡ released_entries e of (option_map (λ r. r.now) row.entry) letters.now) }
{
    let by = Actor::Engine(e);
    let rows = rows_entry(alloc, by, unlock_writes(alloc, row)?)?;
    let ended = ended_and_sent(alloc, of, letters)?;
    with_last(rows, mail_entry(alloc, by, ended)?)
}

/// What is told of the end of a job, and of the letters behind it.
pub fn ended_and_sent(
    alloc: Global,
    of: EngineNo,
    letters: &[Letter],
) -> Result<Seq<MailWrite>, AllocError>
    ensures { IfOk result (λ writes. writes ≡ Ended of ∷ map Sent letters.now) }
{
    let mut writes = Seq::with_capacity(alloc, letters.len())?;
    writes.push(MailWrite::Ended(of))?;
    for letter in letters {
        writes.push(MailWrite::Sent(letter.copy()?))?;
    }
    Ok(writes)
}
