//! Reading rows.
ghost use Rattle.std.specs.Prelude.{◌≡◌, ◌≢◌, ◌↔◌, ◌<◌, ◌^◌, IsTrue, IfOk, IfErr};
ghost use Rattle.plan_codec.specs.Below.{Rollback};
ghost use Rattle.plan_codec.specs.Spellings.{Takes, Refuses};
ghost use Rattle.row_codec.specs.Records.{spelled_row, IsProperRow};
ghost use Rattle.row_codec.specs.RecordLaws.{IsAnyRow, row_parts};

use crate::of::Of;
use plan_codec::{
    Act, EngineNo, Facts, Kind, Policy, Properties, Readable, ResName, RowNo, Seq, StackName,
    Status, TravNo, Unread, WORN,
};
use row_table::Row;
use std::alloc::Global;

/// The row at the front.
pub(crate) fn row_at(alloc: Global, bytes: &[u8]) -> Result<(Row, &[u8]), Unread>
    ensures ok { IfOk result (λ x. Takes spelled_row IsProperRow bytes.now x.0 x.1.now) }
    ensures err { IfErr result (Refuses spelled_row IsProperRow bytes.now) }
{
    let (row, rest) = any_row_at(alloc, bytes)?;
    if !is_storable(&row) {
        return Err(Unread::Unspelled);
    }
    Ok((row, rest))
}

// Whether the row's key is below 2^62 and its act is no rollback.
fn is_storable(row: &Row) -> bool
    ensures { IsTrue result ↔ (row.now.key < 2 ^ 62) × (row.now.act ≢ Rollback) }
{
    row.key < WORN && row.act != Act::Rollback
}

// Its number and names, what was last begun at it, and how far that is.
type Head = (
    RowNo,
    (
        StackName,
        (ResName, (Kind, (Of<Act>, (Of<Status>, TravNo)))),
    ),
);

// Its properties, those that it is to get, and its facts.
type Contents = (Properties, (Option<Properties>, Option<Facts>));

// The rows that it requires, those round it, its engine, key and policy.
type Ties = (
    Seq<RowNo>,
    (
        Option<RowNo>,
        (Option<RowNo>, (Option<EngineNo>, (u64, Policy))),
    ),
);

// The row at the front, whatever its act and key.
fn any_row_at(alloc: Global, bytes: &[u8]) -> Result<(Row, &[u8]), Unread>
    ensures ok { IfOk result (λ x. Takes spelled_row IsAnyRow bytes.now x.0 x.1.now) }
    ensures err { IfErr result (Refuses spelled_row IsAnyRow bytes.now) }
{
    let (parts, rest) = <(Head, (Contents, Ties))>::read(alloc, bytes)?;
    Ok((row_of(parts), rest))
}

// The row of its parts.
#[tactic(auto, unfolding(crate::specs::RecordLaws::row_parts))]
fn row_of(parts: (Head, (Contents, Ties))) -> Row
    ensures { result ≡ row_parts.to parts }
{
    let (head, (contents, ties)) = parts;
    let (no, (stack, (name, (kind, (act, (status, trav)))))) = head;
    let (props, (target, facts)) = contents;
    let (requires_, (replaces, (replaced_by, (engine, (key, policy))))) = ties;
    Row {
        no,
        stack,
        name,
        kind,
        act: act.thing,
        status: status.thing,
        trav,
        props,
        target,
        facts,
        requires_,
        replaces,
        replaced_by,
        engine,
        key,
        policy,
    }
}
