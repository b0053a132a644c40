//! Values: a tag, and what is behind it. A value that nests deeper than it may is refused where that shows,
//! so that reading goes no deeper than the limit.
ghost use Rattle.std.specs.Prelude.{◌≡◌, ◌+◌, ◌∷◌, IfOk, IfErr, OnErr, map};
ghost use Rattle.heat_value.specs.Meaning.{data_of};
ghost use Rattle.plan_codec.specs.Parts.{spelled_list, AreAll};
ghost use Rattle.plan_codec.specs.Spellings.{Takes, Refuses};
ghost use Rattle.plan_codec.specs.Values.{spelled_whole, IsWhole, spelled_value, IsWithin, spelled_items, AreItems};
ghost use Rattle.plan_codec.specs.Values.{spelled_fields, AreFields, IsWithinFields};
ghost use Rattle.plan_codec.specs.ValueLaws.{spelled_member, IsMember, pair_of};

use crate::coding::Readable;
use crate::fields::rising_map;
use crate::numbers::number_at;
use crate::unread::Unread;
use heat_value::{Items, Member, Props, Text, Value};
use std::alloc::Global;

// The whole number whose two's complement stands at the front.
fn whole_at(bytes: &[u8]) -> Result<(i64, &[u8]), Unread>
    ensures ok { IfOk result (λ x. Takes spelled_whole IsWhole bytes.now x.0 x.1.now) }
    ensures err { IfErr result (Refuses spelled_whole IsWhole bytes.now) }
{
    let (number, rest) = number_at(bytes)?;
    Ok((number.cast_signed(), rest))
}

/// The value at the front, which nests so deep at most.
#[cycle(values)]
pub(crate) fn value_at(alloc: Global, limit: u32, bytes: &[u8]) -> Result<(Value, &[u8]), Unread>
    ensures ok { IfOk result (λ x. Takes spelled_value (IsWithin limit) bytes.now (data_of x.0) x.1.now) }
    ensures err { IfErr result (Refuses spelled_value (IsWithin limit) bytes.now) }
{
    match bytes {
        [0, rest @ ..] => Ok((Value::Null, rest)),
        [1, rest @ ..] => Ok((Value::Flag(false), rest)),
        [2, rest @ ..] => Ok((Value::Flag(true), rest)),
        [3, rest @ ..] => whole_value_at(limit, rest),
        [4, rest @ ..] => words_value_at(alloc, limit, rest),
        [5, rest @ ..] => items_value_at(alloc, limit, rest),
        [6, rest @ ..] => fields_value_at(alloc, limit, rest),
        _ => Err(Unread::Unspelled),
    }
}

// The number behind its tag.
fn whole_value_at(limit: u32, rest: &[u8]) -> Result<(Value, &[u8]), Unread>
    ensures ok { IfOk result (λ x. Takes spelled_value (IsWithin limit) (3 ∷ rest.now) (data_of x.0) x.1.now) }
    ensures err { IfErr result (Refuses spelled_value (IsWithin limit) (3 ∷ rest.now)) }
{
    let (whole, rest) = whole_at(rest)?;
    Ok((Value::Whole(whole), rest))
}

// The text behind its tag.
fn words_value_at(alloc: Global, limit: u32, rest: &[u8]) -> Result<(Value, &[u8]), Unread>
    ensures ok { IfOk result (λ x. Takes spelled_value (IsWithin limit) (4 ∷ rest.now) (data_of x.0) x.1.now) }
    ensures err { IfErr result (Refuses spelled_value (IsWithin limit) (4 ∷ rest.now)) }
{
    let (words, rest) = Text::read(alloc, rest)?;
    Ok((Value::Words(words), rest))
}

// The list behind its tag.
#[cycle(values)]
fn items_value_at(alloc: Global, limit: u32, rest: &[u8]) -> Result<(Value, &[u8]), Unread>
    ensures ok { IfOk result (λ x. Takes spelled_value (IsWithin limit) (5 ∷ rest.now) (data_of x.0) x.1.now) }
    ensures err { IfErr result (Refuses spelled_value (IsWithin limit) (5 ∷ rest.now)) }
{
    let (items, rest) = items_at(alloc, limit, rest)?;
    Ok((Value::Items(items), rest))
}

// The map behind its tag.
#[cycle(values)]
fn fields_value_at(alloc: Global, limit: u32, rest: &[u8]) -> Result<(Value, &[u8]), Unread>
    ensures ok { IfOk result (λ x. Takes spelled_value (IsWithin limit) (6 ∷ rest.now) (data_of x.0) x.1.now) }
    ensures err { IfErr result (Refuses spelled_value (IsWithin limit) (6 ∷ rest.now)) }
{
    let (fields, rest) = inner_fields_at(alloc, limit, rest)?;
    Ok((Value::Fields(fields), rest))
}

// The limit of what is inside; nothing is inside what may not nest.
fn one_less(limit: u32) -> Result<u32, Unread>
    ensures ok { IfOk result (λ deep. limit ≡ deep + 1) }
    ensures err { OnErr result (limit ≡ 0) }
{
    if limit == 0 {
        return Err(Unread::Unspelled);
    }
    Ok(limit - 1)
}

// The list of values at the front: how many, and each. It nests one deeper than they do.
#[cycle(values)]
fn items_at(alloc: Global, limit: u32, bytes: &[u8]) -> Result<(Items, &[u8]), Unread>
    ensures ok { IfOk result (λ x. Takes spelled_items (AreItems limit) bytes.now x.0 x.1.now) }
    ensures err { IfErr result (Refuses spelled_items (AreItems limit) bytes.now) }
{
    let deep = one_less(limit)?;
    let (count, mut rest) = number_at(bytes)?;
    let mut all = Items::new(alloc);
    for _ in 0..count {
        let (value, behind) = value_at(alloc, deep, rest)?;
        all.push(value)?;
        rest = behind;
    }
    Ok((all, rest))
}

// The map at the front, which nests one deeper than its values.
#[cycle(values)]
fn inner_fields_at(alloc: Global, limit: u32, bytes: &[u8]) -> Result<(Props, &[u8]), Unread>
    ensures ok { IfOk result (λ x. Takes spelled_fields (IsWithinFields limit) bytes.now x.0 x.1.now) }
    ensures err { IfErr result (Refuses spelled_fields (IsWithinFields limit) bytes.now) }
{
    let deep = one_less(limit)?;
    let (fields, rest) = fields_at(alloc, deep, bytes)?;
    Ok((fields, rest))
}

/// The map at the front, each of whose values nests so deep at most.
#[cycle(values)]
pub(crate) fn fields_at(alloc: Global, limit: u32, bytes: &[u8]) -> Result<(Props, &[u8]), Unread>
    ensures ok { IfOk result (λ x. Takes spelled_fields (AreFields limit) bytes.now x.0 x.1.now) }
    ensures err { IfErr result (Refuses spelled_fields (AreFields limit) bytes.now) }
{
    let (members, rest) = members_at(alloc, limit, bytes)?;
    let props = rising_map(alloc, members)?;
    Ok((props, rest))
}

// The members at the front: how many, and each.
#[cycle(values)]
fn members_at(alloc: Global, limit: u32, bytes: &[u8]) -> Result<(Vec<Member>, &[u8]), Unread>
    ensures ok { IfOk result (λ x. Takes (spelled_list spelled_member) (AreAll (IsMember limit)) bytes.now
        (map pair_of x.0.items) x.1.now) }
    ensures err { IfErr result (Refuses (spelled_list spelled_member) (AreAll (IsMember limit)) bytes.now) }
{
    let (count, mut rest) = number_at(bytes)?;
    let mut all = Vec::new(alloc);
    for _ in 0..count {
        let (member, behind) = member_at(alloc, limit, rest)?;
        all.push(member)?;
        rest = behind;
    }
    Ok((all, rest))
}

// The member at the front: its key, then its value.
#[cycle(values)]
fn member_at(alloc: Global, limit: u32, bytes: &[u8]) -> Result<(Member, &[u8]), Unread>
    ensures ok { IfOk result (λ x. Takes spelled_member (IsMember limit) bytes.now (pair_of x.0) x.1.now) }
    ensures err { IfErr result (Refuses spelled_member (IsMember limit) bytes.now) }
{
    let (key, rest) = Text::read(alloc, bytes)?;
    let (value, rest) = value_at(alloc, limit, rest)?;
    Ok((Member { key, value }, rest))
}
