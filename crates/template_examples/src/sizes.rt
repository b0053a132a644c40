//! Texts and maps as long as the limit, and one byte longer.
use crate::cases::{Count, Counter, all_counted};
use heat_value::{Items, Props, Seq, Text, Value};
use hot_strings::{StringFault, fits, join, map_fits};
use std::alloc::{AllocError, Global};

// A quote, which takes two bytes in JSON, and so many letters.
fn long(alloc: Global, letters: usize) -> Result<Text, AllocError> {
    let mut text = String::from_str(alloc, "\"")?;
    for _ in 0..letters {
        text.push_str("a")?;
    }
    Ok(Text::from_string(text))
}

// What comes of the join of one such text.
struct Joined;

impl Counter for Joined {
    fn told_of(&self, alloc: Global, count: usize) -> Result<String, AllocError> {
        let mut items = Seq::new(alloc);
        items.push(long(alloc, count)?)?;
        let delimiter = Text::from_str(alloc, "")?;
        match join(alloc, &delimiter, items.as_slice()) {
            Ok(_) => String::from_str(alloc, "joined"),
            Err(StringFault::Memory) => Err(AllocError),
            Err(_) => String::from_str(alloc, "too long"),
        }
    }
}

const JOINED: &[Count] = &[(1_048_572, "joined"), (1_048_573, "too long")];

#[test]
fn stops_at_the_limit(rt: HostRuntime) -> Result<(), AllocError> {
    all_counted(&rt, &Joined, JOINED)
}

fn put(alloc: Global, map: &mut Props, key: &str, value: Value) -> Result<(), AllocError> {
    map.put(Text::from_str(alloc, key)?, value)
}

// An empty list beside a long text: 17 bytes and the letters.
fn map_of(alloc: Global, letters: usize) -> Result<Props, AllocError> {
    let mut map = Props::new(alloc);
    put(alloc, &mut map, "a", Value::Items(Items::new(alloc)))?;
    put(alloc, &mut map, "b", Value::Words(long(alloc, letters)?))?;
    Ok(map)
}

// Whether such a map fits, by itself and as a value.
struct Fits;

impl Counter for Fits {
    fn told_of(&self, alloc: Global, count: usize) -> Result<String, AllocError> {
        let map = map_of(alloc, count)?;
        let fit = map_fits(&map) && fits(&Value::Fields(map));
        String::from_str(alloc, if fit { "fits" } else { "too long" })
    }
}

const FITS: &[Count] = &[(1_048_559, "fits"), (1_048_560, "too long")];

#[test]
fn fits_up_to_the_limit(rt: HostRuntime) -> Result<(), AllocError> {
    all_counted(&rt, &Fits, FITS)
}
