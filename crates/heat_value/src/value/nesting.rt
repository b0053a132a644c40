//! How deep the lists and maps of a reading nest.
ghost use Rattle.std.specs.Prelude.{◌≡◌, ◌↔◌, ◌≤◌, IsTrue};
ghost use Rattle.serde_json.specs.Data.{depth, items_depth, members_depth};
ghost use Rattle.serde_json.specs.View.{view, items_view, members_view};

use serde_json::{Map, Value};

/// Whether the lists and maps of a reading nest no deeper than the limit.
#[cycle(nesting)]
pub fn nests_within(value: &Value, limit: u32) -> bool
    ensures { IsTrue result ↔ (depth (view value.now) ≤ limit) }
{
    match value {
        Value::Array(items) => limit > 0 && are_within(items, limit - 1),
        Value::Object(members) => limit > 0 && members_are_within(members, limit - 1),
        _ => true,
    }
}

// Whether each item is within the limit.
#[cycle(nesting)]
fn are_within(items: &Vec<Value>, limit: u32) -> bool
    ensures { IsTrue result ↔ (items_depth (items_view items.now.items) ≤ limit) }
{
    for item in items {
        if !nests_within(item, limit) {
            return false;
        }
    }
    true
}

// Whether each member is within the limit.
#[cycle(nesting)]
fn members_are_within(members: &Map<String, Value>, limit: u32) -> bool
    ensures { IsTrue result ↔ (members_depth (members_view members.now.entries) ≤ limit) }
{
    for (_key, member) in members.iter() {
        if !nests_within(member, limit) {
            return false;
        }
    }
    true
}
