//! How large values are that are there already, and whether they may be results.
ghost use Rattle.std.specs.Prelude.{◌≡◌, ◌↔◌, ◌+◌, ◌-◌, ◌^◌, IsTrue, min, length};
ghost use Rattle.json.specs.Print.{quoted};
ghost use Rattle.heat_value.specs.Compact.{compact};
ghost use Rattle.heat_value.specs.Data.{items, fields};
ghost use Rattle.heat_value.specs.Meaning.{data_of, nodes_of, members_of};
ghost use Rattle.hot_strings.specs.Size.{Fits};

use crate::size::{MAX_SIZE, escaped_len};
use crate::whole::whole_len;
use heat_value::{Member, Props, Value};

/// Whether a value has at most `MAX_SIZE` bytes of compact JSON.
pub fn fits(value: &Value) -> bool
    ensures { IsTrue result ↔ Fits (data_of value.now) }
{
    value_size(value) <= MAX_SIZE
}

/// Whether a map has at most `MAX_SIZE` bytes of compact JSON.
pub fn map_fits(map: &Props) -> bool
    ensures { IsTrue result ↔ Fits (fields map.now) }
{
    map_size(map.as_slice()) <= MAX_SIZE
}

/// How many bytes of compact JSON a value takes, as far as a `usize` counts.
#[cycle(sizes)]
pub fn value_size(value: &Value) -> usize
    ensures { result ≡ min (length (compact (data_of value.now))) (2 ^ 64 - 1) }
{
    match value {
        Value::Null => 4,
        Value::Flag(flag) => if *flag { 4 } else { 5 },
        Value::Whole(whole) => whole_len(*whole),
        Value::Words(words) => words_size(words.as_str()),
        Value::Items(items) => list_size(items.as_slice()),
        Value::Fields(fields) => map_size(fields.as_slice()),
    }
}

// How many bytes a text takes, in quotes.
fn words_size(words: &str) -> usize
    ensures { result ≡ min (length (quoted words.now)) (2 ^ 64 - 1) }
{
    let mut size = 2usize;
    for byte in words.as_bytes() {
        size = size.saturating_add(escaped_len(*byte));
    }
    size
}

// How many bytes a list takes: a bracket, and each value with the comma or bracket before it.
#[cycle(sizes)]
#[tactic(auto, using(crate::proofs::Weights::for_sizes))]
fn list_size(values: &[Value]) -> usize
    ensures { result ≡ min (length (compact (items (nodes_of values.now)))) (2 ^ 64 - 1) }
{
    if values.is_empty() {
        return 2;
    }
    let mut size = 1usize;
    for value in values {
        size = size.saturating_add(1).saturating_add(value_size(value));
    }
    size
}

// How many bytes a map takes, likewise.
#[cycle(sizes)]
#[tactic(auto, using(crate::proofs::Weights::for_sizes))]
fn map_size(members: &[Member]) -> usize
    ensures { result ≡ min (length (compact (fields (members_of members.now)))) (2 ^ 64 - 1) }
{
    if members.is_empty() {
        return 2;
    }
    let mut size = 1usize;
    for member in members {
        size = size.saturating_add(1).saturating_add(member_size(member));
    }
    size
}

// How many bytes a key, its colon and its value take.
#[cycle(sizes)]
fn member_size(member: &Member) -> usize
    ensures { result ≡ min
        (length (quoted member.now.key) + 1 + length (compact (data_of member.now.value)))
        (2 ^ 64 - 1) }
{
    words_size(member.key.as_str())
        .saturating_add(1)
        .saturating_add(value_size(&member.value))
}
