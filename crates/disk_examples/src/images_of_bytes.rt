//! Images of worked bytes in both versions: whole, cut at each length, behind each gate, out of place.
use row_journal::read_image;
use std::alloc::{AllocError, Global};
use std::process::Abort;
use std::test::Fail;

const ONE: &[u8] = b"HEATJ001\x01\0\0\0\0\0\0\0\x03abc\0";

const TWO: &[u8] = b"HEATJ002\x01\0\0\0\0\0\0\0\x03\0\0\0\0\0\0\0\x01abc\0";

const TWICE: &[u8] =
    b"HEATJ002\x01\0\0\0\0\0\0\0\x01\0\0\0\0\0\0\0\x01a\x01\0\0\0\0\0\0\0\x01\0\0\0\0\0\0\0\x02b\0";

const BORN: &[u8] = b"HEATS001\0\0\0\0\0\0\0\x01\x01\0\0\0\0\0\0\0\x03xyz\0";

const LATER: &[u8] = b"HEATS002\0\0\0\0\0\0\0\x02\x01\0\0\0\0\0\0\0\x01\0\0\0\0\0\0\0\x01q\x02";

// The payloads, each with a stop behind it, or `?` where there is no image.
fn shown(alloc: Global, first: &[u8], second: &[u8]) -> Result<Vec<u8>, AllocError> {
    let mut text = Vec::new(alloc);
    match read_image(alloc, first, second)? {
        Some(found) => {
            for payload in &found.payloads {
                text.extend_from_slice(payload.as_slice())?;
                text.push(b'.')?;
            }
        }
        None => text.push(b'?')?,
    }
    Ok(text)
}

fn shows(
    rt: &(impl Abort + AllocGlobal),
    first: &[u8],
    second: &[u8],
    want: &[u8],
) -> Result<(), AllocError> {
    let text = shown(rt.alloc(), first, second)?;
    assert_eq!(rt; text.as_slice(), want);
    Ok(())
}

#[test]
fn first_alone(rt: HostRuntime) -> Result<(), Fail> {
    let cases: [(&[u8], &[u8]); 12] = [
        (b"", b""),
        (b"any nine!", b""),
        (b"any other!", b"?"),
        (ONE, b"abc."),
        (TWO, b"abc."),
        (b"HEATJ003\0\0", b"?"),
        (b"HEATJ002\0\0", b""),
        (b"HEATJ001\x07\0\0\0\0\0\0\0\x03abc\0", b""),
        (b"HEATJ001\x01\0\0\0\0\0\0\0\x03ab", b"?"),
        (
            b"HEATJ002\x01\0\0\0\0\0\0\0\x03\0\0\0\0\0\0\0\x02abc\0",
            b"?",
        ),
        (
            b"HEATJ001\x01\0\0\0\0\0\0\0\x01a\x01\0\0\0\0\0\0\0\0\x02",
            b"a..",
        ),
        (b"HEATJ001\x01\xff\xff\xff\xff\xff\xff\xff\xffabc", b"?"),
    ];
    for (first, want) in cases {
        shows(&rt, first, b"", want)?;
    }
    Ok(())
}

#[test]
fn both_halves(rt: HostRuntime) -> Result<(), Fail> {
    let cases: [(&[u8], &[u8], &[u8]); 7] = [
        (ONE, BORN, b"xyz."),
        (BORN, ONE, b"xyz."),
        (ONE, &BORN[..17], b"abc."),
        (BORN, LATER, b"q."),
        (LATER, BORN, b"q."),
        (BORN, BORN, b"xyz."),
        (b"no journal", LATER, b"q."),
    ];
    for (first, second, want) in cases {
        shows(&rt, first, second, want)?;
    }
    Ok(())
}

#[test]
fn a_half_that_is_not_born_is_not_read(rt: HostRuntime) -> Result<(), Fail> {
    shows(
        &rt,
        ONE,
        b"HEATS001\0\0\0\0\0\0\0\x01\0\0\0\0\0\0\0\0\x03xyz\0",
        b"abc.",
    )?;
    shows(
        &rt,
        ONE,
        b"HEATS003\0\0\0\0\0\0\0\x01\x01\0\0\0\0\0\0\0\x03xyz\0",
        b"abc.",
    )?;
    Ok(())
}

// What is shown of each length: the last of these texts whose length it reaches.
fn reached(texts: [(usize, &'static [u8]); 3], len: usize) -> &'static [u8] {
    let mut want: &'static [u8] = b"";
    for (from, text) in texts {
        if from <= len {
            want = text;
        }
    }
    want
}

// Each front of First alone.
fn fronts_show(
    rt: &(impl Abort + AllocGlobal),
    half: &[u8],
    texts: [(usize, &'static [u8]); 3],
) -> Result<(), AllocError> {
    for len in 0..=half.len() {
        shows(rt, &half[..len], b"", reached(texts, len))?;
    }
    Ok(())
}

// Each front of Second beside a whole First.
fn fronts_of_second_show(
    rt: &(impl Abort + AllocGlobal),
    half: &[u8],
    texts: [(usize, &'static [u8]); 3],
) -> Result<(), AllocError> {
    for len in 0..=half.len() {
        shows(rt, ONE, &half[..len], reached(texts, len))?;
    }
    Ok(())
}

#[test]
fn cut_at_each_length(rt: HostRuntime) -> Result<(), Fail> {
    fronts_show(&rt, ONE, [(0, b""), (10, b"?"), (20, b"abc.")])?;
    fronts_show(&rt, TWO, [(0, b""), (10, b"?"), (28, b"abc.")])?;
    fronts_show(&rt, BORN, [(0, b""), (10, b"?"), (28, b"xyz.")])?;
    fronts_of_second_show(&rt, BORN, [(0, b"abc."), (18, b"?"), (28, b"xyz.")])?;
    fronts_of_second_show(&rt, LATER, [(0, b"abc."), (18, b"?"), (34, b"q.")])?;
    Ok(())
}

// Of all bytes at this place in First the right one alone shows a record more, or any.
fn one_byte_shows(
    rt: &(impl Abort + AllocGlobal),
    half: &[u8],
    at: usize,
    right: u8,
    with: &[u8],
    without: &[u8],
) -> Result<(), AllocError> {
    let mut bytes = Vec::from_slice(rt.alloc(), half)?;
    for byte in 0..=255u8 {
        if let Some(place) = bytes.get_mut(at) {
            *place = byte;
        }
        shows(rt, &bytes, b"", if byte == right { with } else { without })?;
    }
    Ok(())
}

#[test]
fn each_gate(rt: HostRuntime) -> Result<(), Fail> {
    one_byte_shows(&rt, ONE, 8, 1, b"abc.", b"")?;
    one_byte_shows(&rt, TWO, 8, 1, b"abc.", b"")?;
    one_byte_shows(&rt, TWICE, 26, 1, b"a.b.", b"a.")?;
    one_byte_shows(&rt, LATER, 16, 1, b"q.", b"?")?;
    Ok(())
}

// The last byte of a record's number.
#[test]
fn each_number(rt: HostRuntime) -> Result<(), Fail> {
    one_byte_shows(&rt, TWO, 24, 1, b"abc.", b"?")?;
    one_byte_shows(&rt, TWICE, 24, 1, b"a.b.", b"?")?;
    one_byte_shows(&rt, TWICE, 42, 2, b"a.b.", b"?")?;
    one_byte_shows(&rt, LATER, 32, 1, b"q.", b"?")?;
    Ok(())
}
