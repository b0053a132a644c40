//! A failure at each disk call of openings, appends and snapshots, what a crash then leaves, what an
//! opening finds of it, and what a crash inside that opening leaves.
use crate::steps::{adds, snaps, text_of};
use heat_disk::{Disk, Fuse, MemDisk};
use row_journal::{Imaged, Journal, Recovered};
use std::alloc::{AllocError, Global};
use std::process::Abort;
use std::test::Fail;

const ONE: &[u8] = b"HEATJ001\x01\0\0\0\0\0\0\0\x03abc\0";

// First ends at a gate that a crash left torn, with the whole record `abc` behind it.
const TORN: &[u8] = b"HEATJ002\x07\0\0\0\0\0\0\0\x03\0\0\0\0\0\0\0\x01abc\0";

// Makes one step: `+b` adds the record `b`, `*s` makes the snapshot `s`.
fn makes<D: Disk>(journal: &mut Journal<D>, step: &[u8]) -> Result<bool, AllocError> {
    match step {
        [b'+', bytes @ ..] => adds(journal, bytes),
        [b'*', bytes @ ..] => snaps(journal, bytes),
        _ => Ok(false),
    }
}

// What a journal may hold: what was acknowledged, and what it is if the call that failed took effect.
struct Told {
    sure: Vec<u8>,
    maybe: Vec<u8>,
}

impl Drop for Told {
    fn drop(self) {
        let Told { sure: _, maybe: _ } = self;
    }
}

impl Told {
    fn new(alloc: Global, sure: &[u8], maybe: &[u8]) -> Result<Told, AllocError> {
        Ok(Told {
            sure: Vec::from_slice(alloc, sure)?,
            maybe: Vec::from_slice(alloc, maybe)?,
        })
    }

    fn allows(&self, text: &[u8]) -> bool {
        self.sure.as_slice() == text || self.maybe.as_slice() == text
    }

    // It holds this text and no other.
    fn is(&mut self, text: &[u8]) -> Result<(), AllocError> {
        self.sure.clear();
        self.sure.extend_from_slice(text)?;
        self.maybe.clear();
        self.maybe.extend_from_slice(text)
    }

    // The step is made, and may fail.
    fn tries(&mut self, step: &[u8]) -> Result<(), AllocError> {
        match step {
            [b'+', bytes @ ..] => self.maybe.extend_from_slice(bytes)?,
            [_, bytes @ ..] => {
                self.maybe.clear();
                self.maybe.extend_from_slice(bytes)?;
            }
            [] => {}
        }
        self.maybe.push(b'.')?;
        Ok(())
    }

    // It was acknowledged.
    fn takes(&mut self) -> Result<(), AllocError> {
        self.sure.clear();
        self.sure.extend_from_slice(&self.maybe)
    }
}

// The steps, up to the first that the disk didn't take.
fn steps<D: Disk>(
    journal: &mut Journal<D>,
    script: &[u8],
    told: &mut Told,
) -> Result<(), AllocError> {
    for step in script.chunks(2) {
        told.tries(step)?;
        if !makes(journal, step)? {
            break;
        }
        told.takes()?;
    }
    Ok(())
}

// An opening, which finds what was told, and then the steps.
fn session<D: Disk + Drop>(
    rt: &(impl Abort + AllocGlobal),
    disk: D,
    script: &[u8],
    told: &mut Told,
) -> Result<D, AllocError> {
    match Journal::recover(rt.alloc(), disk) {
        Recovered::Opened(journal, payloads) => {
            let mut journal = journal;
            let text = text_of(rt.alloc(), &payloads)?;
            assert!(rt; told.allows(&text));
            told.is(&text)?;
            steps(&mut journal, script, told)?;
            Ok(journal.inner())
        }
        Recovered::DiskFault(disk) => Ok(disk),
        Recovered::Foreign(disk) | Recovered::Memory(disk) => {
            assert!(rt; false);
            Ok(disk)
        }
    }
}

// Two openings, each with its steps.
fn sessions<D: Disk + Drop>(
    rt: &(impl Abort + AllocGlobal),
    disk: D,
    scripts: [&[u8]; 2],
    told: &mut Told,
) -> Result<D, AllocError> {
    let disk = session(rt, disk, scripts[0], told)?;
    session(rt, disk, scripts[1], told)
}

// What a crash then leaves was told.
fn leaves(
    rt: &(impl Abort + AllocGlobal),
    disk: &MemDisk,
    fill: Option<u8>,
    told: &Told,
) -> Result<(), AllocError> {
    let mut left = disk.crash(fill)?;
    match Journal::image(rt.alloc(), &mut left) {
        Imaged::Payloads(payloads) => {
            let text = text_of(rt.alloc(), &payloads)?;
            assert!(rt; told.allows(&text));
        }
        Imaged::Foreign | Imaged::DiskFault | Imaged::Memory => assert!(rt; false),
    }
    Ok(())
}

const FILLS: [Option<u8>; 4] = [None, Some(0), Some(1), Some(0xff)];

// After a crash, an opening and a step, where each disk call after so many fails, and another crash.
fn opens_after(
    rt: &(impl Abort + AllocGlobal),
    found: MemDisk,
    passes: u64,
    told: &Told,
) -> Result<(), AllocError> {
    let mut then = Told::new(rt.alloc(), &told.sure, &told.maybe)?;
    let disk = session(rt, Fuse::new(found, passes), b"+z", &mut then)?.inner();
    for fill in FILLS {
        leaves(rt, &disk, fill, &then)?;
    }
    Ok(())
}

// A crash of this disk with each fill, and an opening behind it, stopped at each of its calls.
fn crashes(rt: &(impl Abort + AllocGlobal), disk: &MemDisk, told: &Told) -> Result<(), AllocError> {
    for fill in FILLS {
        leaves(rt, disk, fill, told)?;
        for passes in 0..=14 {
            opens_after(rt, disk.crash(fill)?, passes, told)?;
        }
    }
    Ok(())
}

// First's bytes, what they stand for, perhaps only after a crash, and what stands there at the end.
struct Scenario {
    first: &'static [u8],
    sure: &'static [u8],
    maybe: &'static [u8],
    end: &'static [u8],
}

// More than the disk calls that any of the scripts makes.
const MOST: u64 = 50;

// Each disk call after so many fails, then one more, and so on, up to none.
fn stops(
    rt: &(impl Abort + AllocGlobal),
    scenario: &Scenario,
    scripts: [&[u8]; 2],
) -> Result<(), AllocError> {
    for passes in 0..=MOST {
        let mut told = Told::new(rt.alloc(), scenario.sure, scenario.maybe)?;
        let disk = MemDisk::holding(rt.alloc(), scenario.first, b"", &[])?;
        let disk = sessions(rt, Fuse::new(disk, passes), scripts, &mut told)?.inner();
        crashes(rt, &disk, &told)?;
        assert!(rt; passes < MOST || told.sure.as_slice() == scenario.end);
    }
    Ok(())
}

// Each disk call fails alone, so an opening behind it goes on from there.
fn failures(
    rt: &(impl Abort + AllocGlobal),
    scenario: &Scenario,
    scripts: [&[u8]; 2],
) -> Result<(), AllocError> {
    for number in 1..=MOST {
        let mut told = Told::new(rt.alloc(), scenario.sure, scenario.maybe)?;
        let disk = MemDisk::holding(rt.alloc(), scenario.first, b"", &[number])?;
        let disk = sessions(rt, disk, scripts, &mut told)?;
        crashes(rt, &disk, &told)?;
        assert!(rt; number < MOST || told.sure.as_slice() == scenario.end);
    }
    Ok(())
}

// An empty journal, and a closed one.
const EMPTY: [Scenario; 2] = [
    Scenario {
        first: b"",
        sure: b"",
        maybe: b"",
        end: b"s.d.",
    },
    Scenario {
        first: b"HEATJ002\0",
        sure: b"",
        maybe: b"",
        end: b"s.d.",
    },
];

const OF_ONE: Scenario = Scenario {
    first: ONE,
    sure: b"abc.",
    maybe: b"abc.",
    end: b"u.",
};

const OF_TORN: Scenario = Scenario {
    first: TORN,
    sure: b"",
    maybe: b"abc.",
    end: b"s.d.",
};

#[test]
fn stops_in_an_empty_journal(rt: HostRuntime) -> Result<(), Fail> {
    for scenario in &EMPTY {
        stops(&rt, scenario, [b"+b+c*s", b"+d"])?;
    }
    Ok(())
}

#[test]
fn stops_in_version_one(rt: HostRuntime) -> Result<(), Fail> {
    stops(&rt, &OF_ONE, [b"*s+b", b"*t*u"])?;
    Ok(())
}

#[test]
fn stops_where_a_gate_was_torn(rt: HostRuntime) -> Result<(), Fail> {
    stops(&rt, &OF_TORN, [b"+b", b"*s+d"])?;
    Ok(())
}

#[test]
fn failures_in_an_empty_journal(rt: HostRuntime) -> Result<(), Fail> {
    for scenario in &EMPTY {
        failures(&rt, scenario, [b"+b+c*s", b"+d"])?;
    }
    Ok(())
}

#[test]
fn failures_in_version_one(rt: HostRuntime) -> Result<(), Fail> {
    failures(&rt, &OF_ONE, [b"*s+b", b"*t*u"])?;
    Ok(())
}

#[test]
fn failures_where_a_gate_was_torn(rt: HostRuntime) -> Result<(), Fail> {
    failures(&rt, &OF_TORN, [b"+b", b"*s+d"])?;
    Ok(())
}
