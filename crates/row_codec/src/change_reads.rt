//! Reading changes: a tag from 1, and the fields behind it.
ghost use Rattle.std.specs.Prelude.{◌∷◌, IfOk, IfErr};
ghost use Rattle.plan_codec.specs.Parts.{spelled_list, AreAll};
ghost use Rattle.plan_codec.specs.Spellings.{Takes, Refuses};
ghost use Rattle.row_codec.specs.Changes.{spelled_change, IsProper};

use crate::jobs::job_at;
use crate::numbers::next_numbers_at;
use crate::of::Of;
use crate::pasts::past_at;
use crate::points::point_at;
use crate::row_reads::row_at;
use crate::stacks::stack_at;
use crate::tokens::token_at;
use core_state::Change;
use mail_table::Letter;
use plan_codec::{EngineNo, LetterNo, Readable, RowNo, StackName, Unread};
use std::alloc::Global;
use traversal_graph::TravGraph;

/// The changes at the front: how many, and each. Nothing is taken for what their number claims: the list grows as
/// changes are read.
pub(crate) fn changes_at(alloc: Global, bytes: &[u8]) -> Result<(Vec<Change>, &[u8]), Unread>
    ensures ok { IfOk result (λ x. Takes (spelled_list spelled_change) (AreAll IsProper) bytes.now x.0.items x.1.now) }
    ensures err { IfErr result (Refuses (spelled_list spelled_change) (AreAll IsProper) bytes.now) }
{
    let (count, mut rest) = u64::read(alloc, bytes)?;
    let mut all = Vec::new(alloc);
    for _ in 0..count {
        let (change, behind) = change_at(alloc, rest)?;
        all.push(change)?;
        rest = behind;
    }
    Ok((all, rest))
}

// The change at the front.
fn change_at(alloc: Global, bytes: &[u8]) -> Result<(Change, &[u8]), Unread>
    ensures ok { IfOk result (λ x. Takes spelled_change IsProper bytes.now x.0 x.1.now) }
    ensures err { IfErr result (Refuses spelled_change IsProper bytes.now) }
{
    match bytes {
        [tag, rest @ ..] => tagged_at(alloc, *tag, rest),
        _ => Err(Unread::Unspelled),
    }
}

// The change of this tag.
fn tagged_at(alloc: Global, tag: u8, rest: &[u8]) -> Result<(Change, &[u8]), Unread>
    ensures ok { IfOk result (λ x. Takes spelled_change IsProper (tag ∷ rest.now) x.0 x.1.now) }
    ensures err { IfErr result (Refuses spelled_change IsProper (tag ∷ rest.now)) }
{
    match tag {
        1 => put_stack_at(alloc, rest),
        2 => drop_stack_at(alloc, rest),
        3 => put_row_at(alloc, rest),
        4 => drop_row_at(alloc, rest),
        5 => put_graph_at(alloc, rest),
        6 => put_point_at(alloc, rest),
        7 => send_at(alloc, rest),
        8 => drop_at(alloc, rest),
        9 => put_job_at(alloc, rest),
        10 => end_job_at(alloc, rest),
        11 => enlist_at(alloc, rest),
        12 => stop_at(alloc, rest),
        13 => numbers_at(alloc, rest),
        14 => put_past_at(alloc, rest),
        15 => release_at(alloc, rest),
        _ => Err(Unread::Unspelled),
    }
}

// The PutStack behind its tag.
fn put_stack_at(alloc: Global, rest: &[u8]) -> Result<(Change, &[u8]), Unread>
    ensures ok { IfOk result (λ x. Takes spelled_change IsProper (1 ∷ rest.now) x.0 x.1.now) }
    ensures err { IfErr result (Refuses spelled_change IsProper (1 ∷ rest.now)) }
{
    let (stack, rest) = stack_at(alloc, rest)?;
    Ok((Change::PutStack(stack), rest))
}

// The DropStack behind its tag.
fn drop_stack_at(alloc: Global, rest: &[u8]) -> Result<(Change, &[u8]), Unread>
    ensures ok { IfOk result (λ x. Takes spelled_change IsProper (2 ∷ rest.now) x.0 x.1.now) }
    ensures err { IfErr result (Refuses spelled_change IsProper (2 ∷ rest.now)) }
{
    let (name, rest) = <StackName as Readable>::read(alloc, rest)?;
    Ok((Change::DropStack(name), rest))
}

// The PutRow behind its tag.
fn put_row_at(alloc: Global, rest: &[u8]) -> Result<(Change, &[u8]), Unread>
    ensures ok { IfOk result (λ x. Takes spelled_change IsProper (3 ∷ rest.now) x.0 x.1.now) }
    ensures err { IfErr result (Refuses spelled_change IsProper (3 ∷ rest.now)) }
{
    let (row, rest) = row_at(alloc, rest)?;
    Ok((Change::PutRow(row), rest))
}

// The DropRow behind its tag.
fn drop_row_at(alloc: Global, rest: &[u8]) -> Result<(Change, &[u8]), Unread>
    ensures ok { IfOk result (λ x. Takes spelled_change IsProper (4 ∷ rest.now) x.0 x.1.now) }
    ensures err { IfErr result (Refuses spelled_change IsProper (4 ∷ rest.now)) }
{
    match <RowNo as Readable>::read(alloc, rest) {
        Ok((row, rest)) => Ok((Change::DropRow(row), rest)),
        Err(why) => Err(why),
    }
}

// The PutGraph behind its tag.
fn put_graph_at(alloc: Global, rest: &[u8]) -> Result<(Change, &[u8]), Unread>
    ensures ok { IfOk result (λ x. Takes spelled_change IsProper (5 ∷ rest.now) x.0 x.1.now) }
    ensures err { IfErr result (Refuses spelled_change IsProper (5 ∷ rest.now)) }
{
    let (parts, rest) = <(StackName, Of<TravGraph>)>::read(alloc, rest)?;
    let (name, graph) = parts;
    Ok((Change::PutGraph(name, graph.thing), rest))
}

// The PutPoint behind its tag.
fn put_point_at(alloc: Global, rest: &[u8]) -> Result<(Change, &[u8]), Unread>
    ensures ok { IfOk result (λ x. Takes spelled_change IsProper (6 ∷ rest.now) x.0 x.1.now) }
    ensures err { IfErr result (Refuses spelled_change IsProper (6 ∷ rest.now)) }
{
    let (point, rest) = point_at(alloc, rest)?;
    Ok((Change::PutPoint(point), rest))
}

// The Send behind its tag.
fn send_at(alloc: Global, rest: &[u8]) -> Result<(Change, &[u8]), Unread>
    ensures ok { IfOk result (λ x. Takes spelled_change IsProper (7 ∷ rest.now) x.0 x.1.now) }
    ensures err { IfErr result (Refuses spelled_change IsProper (7 ∷ rest.now)) }
{
    let (letter, rest) = Of::<Letter>::read(alloc, rest)?;
    Ok((Change::Send(letter.thing), rest))
}

// The Drop behind its tag.
fn drop_at(alloc: Global, rest: &[u8]) -> Result<(Change, &[u8]), Unread>
    ensures ok { IfOk result (λ x. Takes spelled_change IsProper (8 ∷ rest.now) x.0 x.1.now) }
    ensures err { IfErr result (Refuses spelled_change IsProper (8 ∷ rest.now)) }
{
    match LetterNo::read(alloc, rest) {
        Ok((letter, rest)) => Ok((Change::Drop(letter), rest)),
        Err(why) => Err(why),
    }
}

// The PutJob behind its tag.
fn put_job_at(alloc: Global, rest: &[u8]) -> Result<(Change, &[u8]), Unread>
    ensures ok { IfOk result (λ x. Takes spelled_change IsProper (9 ∷ rest.now) x.0 x.1.now) }
    ensures err { IfErr result (Refuses spelled_change IsProper (9 ∷ rest.now)) }
{
    let (job, rest) = job_at(alloc, rest)?;
    Ok((Change::PutJob(job), rest))
}

// The EndJob behind its tag.
fn end_job_at(alloc: Global, rest: &[u8]) -> Result<(Change, &[u8]), Unread>
    ensures ok { IfOk result (λ x. Takes spelled_change IsProper (10 ∷ rest.now) x.0 x.1.now) }
    ensures err { IfErr result (Refuses spelled_change IsProper (10 ∷ rest.now)) }
{
    match EngineNo::read(alloc, rest) {
        Ok((engine, rest)) => Ok((Change::EndJob(engine), rest)),
        Err(why) => Err(why),
    }
}

// The Enlist behind its tag.
fn enlist_at(alloc: Global, rest: &[u8]) -> Result<(Change, &[u8]), Unread>
    ensures ok { IfOk result (λ x. Takes spelled_change IsProper (11 ∷ rest.now) x.0 x.1.now) }
    ensures err { IfErr result (Refuses spelled_change IsProper (11 ∷ rest.now)) }
{
    match EngineNo::read(alloc, rest) {
        Ok((engine, rest)) => Ok((Change::Enlist(engine), rest)),
        Err(why) => Err(why),
    }
}

// The Stop behind its tag.
fn stop_at(alloc: Global, rest: &[u8]) -> Result<(Change, &[u8]), Unread>
    ensures ok { IfOk result (λ x. Takes spelled_change IsProper (12 ∷ rest.now) x.0 x.1.now) }
    ensures err { IfErr result (Refuses spelled_change IsProper (12 ∷ rest.now)) }
{
    match EngineNo::read(alloc, rest) {
        Ok((engine, rest)) => Ok((Change::Stop(engine), rest)),
        Err(why) => Err(why),
    }
}

// The Numbers behind its tag.
fn numbers_at(alloc: Global, rest: &[u8]) -> Result<(Change, &[u8]), Unread>
    ensures ok { IfOk result (λ x. Takes spelled_change IsProper (13 ∷ rest.now) x.0 x.1.now) }
    ensures err { IfErr result (Refuses spelled_change IsProper (13 ∷ rest.now)) }
{
    match next_numbers_at(alloc, rest) {
        Ok((numbers, rest)) => Ok((Change::Numbers(numbers), rest)),
        Err(why) => Err(why),
    }
}

// The PutPast behind its tag.
fn put_past_at(alloc: Global, rest: &[u8]) -> Result<(Change, &[u8]), Unread>
    ensures ok { IfOk result (λ x. Takes spelled_change IsProper (14 ∷ rest.now) x.0 x.1.now) }
    ensures err { IfErr result (Refuses spelled_change IsProper (14 ∷ rest.now)) }
{
    let (past, rest) = past_at(alloc, rest)?;
    Ok((Change::PutPast(past), rest))
}

// The Release behind its tag.
fn release_at(alloc: Global, rest: &[u8]) -> Result<(Change, &[u8]), Unread>
    ensures ok { IfOk result (λ x. Takes spelled_change IsProper (15 ∷ rest.now) x.0 x.1.now) }
    ensures err { IfErr result (Refuses spelled_change IsProper (15 ∷ rest.now)) }
{
    let (token, rest) = token_at(alloc, rest)?;
    Ok((Change::Release(token), rest))
}
