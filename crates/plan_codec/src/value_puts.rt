//! Writing values.
ghost use Rattle.std.specs.Prelude.{◌≡◌, ◌<◌, ◌^◌};
ghost use Rattle.heat_value.specs.Meaning.{data_of, nodes_of, members_of};
ghost use Rattle.plan_codec.specs.Sheets.{behind};
ghost use Rattle.plan_codec.specs.Values.{spelled_whole, IsWhole, spelled_value, IsValue, AreValues, AreMembers};
ghost use Rattle.plan_codec.specs.Numbers.{IsText};
ghost use Rattle.plan_codec.specs.Values.{spelled_items, spelled_fields, nodes_count, members_count};
ghost use Rattle.plan_codec.specs.ValueLaws.{spelled_member, pair_of};

use crate::coding::Writable;
use crate::numbers::put_number;
use crate::sheet::Sheet;
use heat_value::{Member, Value};

// Puts the two's complement of a whole number.
fn put_whole(whole: i64, sheet: &mut Sheet)
    ensures bytes { sheet.new ≡ behind sheet.old (spelled_whole whole) }
    ensures whole { IsWhole whole }
{
    put_number(whole.cast_unsigned(), sheet);
}

/// Puts a value.
#[cycle(putting)]
#[tactic(auto, using(crate::proofs::Sheets::puts, crate::proofs::Weights::for_walks))]
pub(crate) fn put_value(value: &Value, sheet: &mut Sheet)
    ensures bytes { sheet.new ≡ behind sheet.old (spelled_value (data_of value.now)) }
    ensures proper { IsValue (data_of value.now) }
{
    match value {
        Value::Null => sheet.put(0),
        Value::Flag(false) => sheet.put(1),
        Value::Flag(true) => sheet.put(2),
        Value::Whole(whole) => {
            sheet.put(3);
            put_whole(*whole, sheet);
        }
        Value::Words(words) => {
            sheet.put(4);
            words.put(sheet);
        }
        Value::Items(items) => {
            sheet.put(5);
            put_values(items.as_slice(), sheet);
        }
        Value::Fields(fields) => {
            sheet.put(6);
            put_members(fields.as_slice(), sheet);
        }
    }
}

// Puts how many values there are, and each.
#[cycle(putting)]
#[tactic(auto, using(crate::proofs::Weights::for_walks))]
fn put_values(values: &[Value], sheet: &mut Sheet)
    ensures bytes { sheet.new ≡ behind sheet.old (spelled_items (nodes_of values.now)) }
    ensures count { nodes_count (nodes_of values.now) < 2 ^ 64 }
    ensures proper { AreValues (nodes_of values.now) }
{
    put_number(values.len() as u64, sheet);
    for value in values {
        put_value(value, sheet);
    }
}

/// Puts how many members there are, and each: its key, then its value.
#[cycle(putting)]
#[tactic(auto, using(crate::proofs::Weights::for_walks))]
pub(crate) fn put_members(members: &[Member], sheet: &mut Sheet)
    ensures bytes { sheet.new ≡ behind sheet.old (spelled_fields (members_of members.now)) }
    ensures count { members_count (members_of members.now) < 2 ^ 64 }
    ensures proper { AreMembers (members_of members.now) }
{
    put_number(members.len() as u64, sheet);
    for member in members {
        put_member(member, sheet);
    }
}

// Puts a member.
#[cycle(putting)]
#[tactic(auto, using(crate::proofs::Sheets::puts))]
fn put_member(member: &Member, sheet: &mut Sheet)
    ensures bytes { sheet.new ≡ behind sheet.old (spelled_member (pair_of member.now)) }
    ensures proper { IsText member.now.key × IsValue (data_of member.now.value) }
{
    member.key.put(sheet);
    put_value(&member.value, sheet);
}
