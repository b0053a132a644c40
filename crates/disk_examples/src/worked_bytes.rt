//! Worked bytes of both versions: what an opening reads of them, and what it, an append or a snapshot
//! leaves. Each front of them is opened, and each gate.
use crate::steps::{adds, snaps, text_of};
use heat_disk::{FileDisk, Half, MemDisk};
use heat_value::Text;
use row_journal::{Imaged, Journal, Recovered};
use std::alloc::{AllocError, Global};
use std::fs;
use std::process::Abort;
use std::test::Fail;

const ONE: &[u8] = b"HEATJ001\x01\0\0\0\0\0\0\0\x03abc\0";

const SHUT: &[u8] = b"HEATJ001\0\0\0\0\0\0\0\0\x03abc\0";

const CUT: &[u8] = b"HEATJ001\x01\0\0\0\0\0\0\0\x03ab";

const TWO: &[u8] = b"HEATJ002\x01\0\0\0\0\0\0\0\x03\0\0\0\0\0\0\0\x01abc\0";

const TWICE: &[u8] =
    b"HEATJ002\x01\0\0\0\0\0\0\0\x03\0\0\0\0\0\0\0\x01abc\x01\0\0\0\0\0\0\0\x01\0\0\0\0\0\0\0\x02d\0";

const SECOND_OF_ONE: &[u8] = b"HEATJ002\x01\0\0\0\0\0\0\0\x03\0\0\0\0\0\0\0\x02abc\0";

const BORN: &[u8] = b"HEATS001\0\0\0\0\0\0\0\x01\x01\0\0\0\0\0\0\0\x03xyz\0";

const UNBORN: &[u8] = b"HEATS001\0\0\0\0\0\0\0\x01\0\0\0\0\0\0\0\0\x03xyz\0";

const FRESH: &[u8] = b"HEATS002\0\0\0\0\0\0\0\x01\x01\0\0\0\0\0\0\0\x03\0\0\0\0\0\0\0\x01abc\0";

// An opening on these halves reads this, or `?` where there is no image. It leaves this First, and
// Second as it was.
fn opens(
    rt: &(impl Abort + AllocGlobal),
    first: &[u8],
    second: &[u8],
    want: &[u8],
    left: &[u8],
) -> Result<(), AllocError> {
    let disk = MemDisk::holding(rt.alloc(), first, second, &[])?;
    match Journal::recover(rt.alloc(), disk) {
        Recovered::Opened(journal, payloads) => {
            let text = text_of(rt.alloc(), &payloads)?;
            assert_eq!(rt; text.as_slice(), want);
            leaves(rt, &journal.inner(), left, second);
        }
        Recovered::Foreign(disk) => {
            assert_eq!(rt; want, b"?".as_slice());
            leaves(rt, &disk, left, second);
        }
        Recovered::DiskFault(_disk) | Recovered::Memory(_disk) => assert!(rt; false),
    }
    Ok(())
}

fn leaves(rt: &impl Abort, disk: &MemDisk, first: &[u8], second: &[u8]) {
    assert_eq!(rt; disk.bytes(Half::First), first);
    assert_eq!(rt; disk.bytes(Half::Second), second);
}

#[test]
fn openings_of_first(rt: HostRuntime) -> Result<(), Fail> {
    let cases: [(&[u8], &[u8], &[u8]); 14] = [
        (b"", b"", b"HEATJ002\0"),
        (b"any nine!", b"", b"HEATJ002\0"),
        (b"any other!", b"?", b"any other!"),
        (ONE, b"abc.", ONE),
        (SHUT, b"", SHUT),
        (b"HEATJ001\x07\0\0\0\0\0\0\0\x03abc\0", b"", SHUT),
        (CUT, b"?", CUT),
        (&ONE[..20], b"abc.", ONE),
        (TWO, b"abc.", TWO),
        (TWICE, b"abc.d.", TWICE),
        (SECOND_OF_ONE, b"?", SECOND_OF_ONE),
        (&TWO[..28], b"abc.", TWO),
        (b"HEATJ002\0\0", b"", b"HEATJ002\0\0"),
        (b"HEATJ003\0\0", b"?", b"HEATJ003\0\0"),
    ];
    for (first, want, left) in cases {
        opens(&rt, first, b"", want, left)?;
    }
    Ok(())
}

#[test]
fn openings_of_both(rt: HostRuntime) -> Result<(), Fail> {
    let cases: [(&[u8], &[u8], &[u8]); 4] = [
        (ONE, BORN, b"xyz."),
        (ONE, UNBORN, b"abc."),
        (ONE, &BORN[..17], b"abc."),
        (CUT, FRESH, b"abc."),
    ];
    for (first, second, want) in cases {
        opens(&rt, first, second, want, first)?;
    }
    Ok(())
}

// An opening leaves halves that read as it said, or all as it was where they are no journal's.
fn opens_again(
    rt: &(impl Abort + AllocGlobal),
    first: &[u8],
    second: &[u8],
) -> Result<(), AllocError> {
    let disk = MemDisk::holding(rt.alloc(), first, second, &[])?;
    match Journal::recover(rt.alloc(), disk) {
        Recovered::Opened(journal, payloads) => {
            let text = text_of(rt.alloc(), &payloads)?;
            reads(rt, journal.inner(), &text)?;
        }
        Recovered::Foreign(disk) => leaves(rt, &disk, first, second),
        Recovered::DiskFault(_disk) | Recovered::Memory(_disk) => assert!(rt; false),
    }
    Ok(())
}

fn reads(rt: &(impl Abort + AllocGlobal), disk: MemDisk, want: &[u8]) -> Result<(), AllocError> {
    let mut disk = disk;
    match Journal::image(rt.alloc(), &mut disk) {
        Imaged::Payloads(payloads) => {
            let text = text_of(rt.alloc(), &payloads)?;
            assert_eq!(rt; text.as_slice(), want);
        }
        Imaged::Foreign | Imaged::DiskFault | Imaged::Memory => assert!(rt; false),
    }
    Ok(())
}

// Each front of the bytes, as First and as Second.
fn fronts_open(rt: &(impl Abort + AllocGlobal), bytes: &[u8]) -> Result<(), AllocError> {
    for len in 0..=bytes.len() {
        opens_again(rt, &bytes[..len], b"")?;
        opens_again(rt, TWO, &bytes[..len])?;
    }
    Ok(())
}

#[test]
fn fronts(rt: HostRuntime) -> Result<(), Fail> {
    for bytes in [ONE, TWICE, BORN, FRESH, SECOND_OF_ONE] {
        fronts_open(&rt, bytes)?;
    }
    Ok(())
}

// Each byte in place of the one there.
fn each_byte_opens(
    rt: &(impl Abort + AllocGlobal),
    bytes: &[u8],
    at: usize,
) -> Result<(), AllocError> {
    let mut first = Vec::from_slice(rt.alloc(), bytes)?;
    for byte in 0..=255u8 {
        if let Some(place) = first.get_mut(at) {
            *place = byte;
        }
        opens_again(rt, &first, FRESH)?;
        opens_again(rt, &first, b"")?;
    }
    Ok(())
}

#[test]
fn gates_and_numbers(rt: HostRuntime) -> Result<(), Fail> {
    for at in [8, 16, 24, 28] {
        each_byte_opens(&rt, TWICE, at)?;
        each_byte_opens(&rt, BORN, at)?;
    }
    Ok(())
}

// An empty journal.
fn empty(alloc: Global) -> Result<Option<Journal<MemDisk>>, AllocError> {
    let disk = MemDisk::holding(alloc, b"", b"", &[])?;
    match Journal::recover(alloc, disk) {
        Recovered::Opened(journal, _payloads) => Ok(Some(journal)),
        Recovered::Foreign(_disk) | Recovered::DiskFault(_disk) | Recovered::Memory(_disk) => {
            Ok(None)
        }
    }
}

#[test]
fn two_records(rt: HostRuntime) -> Result<(), Fail> {
    if let Some(journal) = empty(rt.alloc())? {
        let mut journal = journal;
        assert!(rt; adds(&mut journal, b"abc")?);
        assert!(rt; adds(&mut journal, b"d")?);
        leaves(&rt, &journal.inner(), TWICE, b"");
    } else {
        assert!(rt; false);
    }
    Ok(())
}

#[test]
fn a_first_snapshot(rt: HostRuntime) -> Result<(), Fail> {
    if let Some(journal) = empty(rt.alloc())? {
        let mut journal = journal;
        assert!(rt; snaps(&mut journal, b"abc")?);
        leaves(&rt, &journal.inner(), b"HEATJ002\0", FRESH);
    } else {
        assert!(rt; false);
    }
    Ok(())
}

// A look at files that aren't there reads no record and makes no file.
#[test]
fn a_look_at_no_files(rt: HostRuntime) -> Result<(), Fail> {
    let path = Text::from_str(rt.alloc(), "no_journal_of_the_test")?;
    let mut disk = FileDisk::look_at(&rt, &path);
    if let Imaged::Payloads(payloads) = Journal::image(rt.alloc(), &mut disk) {
        assert_eq!(rt; payloads.len(), 0);
    } else {
        assert!(rt; false);
    }
    assert!(rt; !fs::exists(&rt, "no_journal_of_the_test")?);
    assert!(rt; !fs::exists(&rt, "no_journal_of_the_test.2")?);
    Ok(())
}
