//! How much a value holds, and bounds on numbers.
ghost use Rattle.std.specs.Prelude.{◌≡◌, IfOk, option_map};
ghost use Rattle.heat_value.specs.Meaning.{data_of};
ghost use Rattle.hot_params.specs.Sizes.{characters as the_characters, count_nodes, count_members};
ghost use Rattle.hot_params.specs.Sizes.{size_of as the_size_of, is_from as the_is_from, is_up_to as the_is_up_to};
ghost use Rattle.hot_params.specs.Sizes.{is_within as the_is_within, leaves as the_leaves};
ghost use Rattle.hot_params.specs.Sizes.{is_remainder as the_is_remainder};

use heat_value::{Items, Props, Value};
use hot_forms::found;
use std::alloc::{AllocError, Global};

/// The count of characters, items or entries.
pub fn size_of(value: &Value) -> usize
    ensures { result ≡ the_size_of (data_of value.now) }
{
    match value {
        Value::Words(words) => characters(words.as_str()),
        Value::Items(items) => items_in(items),
        Value::Fields(fields) => entries_in(fields),
        Value::Null | Value::Flag(_) | Value::Whole(_) => 0,
    }
}

// How many bytes begin a character.
fn characters(text: &str) -> usize
    ensures { result ≡ the_characters text.now }
{
    let mut count = 0;
    for byte in text.as_bytes() {
        if !(128 <= *byte && *byte <= 191) {
            count += 1;
        }
    }
    count
}

// The length of a list.
fn items_in(items: &Items) -> usize
    ensures { result ≡ count_nodes items.now }
{
    items.as_slice().len()
}

// How many keys an object has.
fn entries_in(fields: &Props) -> usize
    ensures { result ≡ count_members fields.now }
{
    fields.as_slice().len()
}

/// Whether a number is within `min` and `max`, as far as they are there.
pub fn is_within(alloc: Global, bounds: &Props, number: i128) -> Result<bool, AllocError>
    ensures { IfOk result (λ b. b ≡ the_is_within bounds.now number) }
{
    let least = found(alloc, bounds, "min")?;
    let most = found(alloc, bounds, "max")?;
    Ok(is_from(least, number) && is_up_to(most, number))
}

// Whether a number isn't below the least one, where there is one.
fn is_from(least: Option<&Value>, number: i128) -> bool
    ensures { result ≡ the_is_from (option_map (λ v. data_of v.now) least.entry) number }
{
    match least {
        Some(Value::Whole(least)) => i128::from(*least) <= number,
        Some(Value::Null | Value::Flag(_) | Value::Words(_)) => true,
        Some(Value::Items(_) | Value::Fields(_)) | None => true,
    }
}

// Whether it isn't above the greatest one, where there is one.
fn is_up_to(most: Option<&Value>, number: i128) -> bool
    ensures { result ≡ the_is_up_to (option_map (λ v. data_of v.now) most.entry) number }
{
    match most {
        Some(Value::Whole(most)) => number <= i128::from(*most),
        Some(Value::Null | Value::Flag(_) | Value::Words(_)) => true,
        Some(Value::Items(_) | Value::Fields(_)) | None => true,
    }
}

/// Whether a number leaves the remainder `offset` on division by `step`.
pub fn is_remainder(alloc: Global, parts: &Props, number: i64) -> Result<bool, AllocError>
    ensures { IfOk result (λ b. b ≡ the_is_remainder parts.now number) }
{
    let offset = found(alloc, parts, "offset")?;
    let step = found(alloc, parts, "step")?;
    Ok(leaves(offset, step, number))
}

// Whether a number leaves the offset when it is divided by the step.
fn leaves(offset: Option<&Value>, step: Option<&Value>, number: i64) -> bool
    ensures { result ≡ the_leaves (option_map (λ v. data_of v.now) offset.entry)
        (option_map (λ v. data_of v.now) step.entry) number }
{
    match (offset, step) {
        (Some(Value::Whole(offset)), Some(Value::Whole(step))) => {
            1 <= *step && number.rem_euclid(*step) == *offset
        }
        _ => false,
    }
}
