//! A keeper of records that fails, is foreign or reads another state at each call in turn.
use crate::fixtures::{CREATE, RUN, joined};
use converge_call::{Outcome, converge_shipped};
use heat_io::{MemSink, MemSource};
use heat_value::{Seq, Text};
use scripted_keeper::{KeptAnswer, ScriptedKeeper};
use sim_cloud::{Settings, SimCloud};
use std::alloc::{AllocError, Global};
use std::test::Fail;

// Whether the keeper is long behind each append.
#[derive(Clone, Copy, Debug, PartialEq, Eq)]
enum Growth {
    Steady,
    Growing,
}

// A keeper whose first calls work, and the next one goes so.
fn keeper(
    alloc: Global,
    growth: Growth,
    works: usize,
    last: KeptAnswer,
) -> Result<ScriptedKeeper, AllocError> {
    let mut answers = Seq::new(alloc);
    for _ in 0..works {
        answers.push(KeptAnswer::Works)?;
    }
    answers.push(last)?;
    match growth {
        Growth::Steady => Ok(ScriptedKeeper::new(answers)),
        Growth::Growing => Ok(ScriptedKeeper::growing(answers)),
    }
}

// How a drive over this keeper ends, and what it writes.
fn driven(
    alloc: Global,
    script: &[u8],
    keeper: ScriptedKeeper,
) -> Result<(u8, MemSink), AllocError> {
    let words = [Text::from_str(alloc, "drive")?];
    let cloud = SimCloud::new(Settings::empty(alloc))?;
    let mut source = MemSource::new(alloc, script, 4096, &[])?;
    let mut sink = MemSink::new(alloc, 4096, &[])?;
    let Outcome { status, end } = converge_shipped(
        alloc,
        &words,
        &mut source,
        &mut sink,
        keeper,
        cloud,
    );
    let _ = end.give_back();
    Ok((status.code(), sink))
}

// Where the script's line of this number ends, from 0 on; its whole length past the last.
fn line_end(script: &[u8], lines: usize) -> usize {
    let mut left = lines;
    for (i, byte) in script.iter().enumerate() {
        if left == 0 {
            return i;
        }
        if *byte == b'\n' {
            left -= 1;
        }
    }
    script.len()
}

// Whether this is the text of so many of the script's first lines, and of no part of another.
fn is_text_of(
    alloc: Global,
    script: &[u8],
    lines: usize,
    written: &[u8],
) -> Result<bool, AllocError> {
    let first = script.get(..line_end(script, lines)).unwrap_or(script);
    let (_, whole) = driven(
        alloc,
        first,
        keeper(alloc, Growth::Steady, 0, KeptAnswer::Works)?,
    )?;
    Ok(whole.held() == written)
}

// Whether it is the text of some first lines.
fn is_text_of_lines(alloc: Global, script: &[u8], written: &[u8]) -> Result<bool, AllocError> {
    for lines in 0..=8 {
        if is_text_of(alloc, script, lines, written)? {
            return Ok(true);
        }
    }
    Ok(false)
}

// A create, its run, an update that replaces, its run, a restart between, and a delete.
const LONG: &[&str] = &[
    CREATE,
    RUN,
    UPDATE,
    "run 3\n",
    "restart\n",
    RUN,
    "delete s\n",
    RUN,
];

const UPDATE: &str = "update s {\"template\":{\"heat_template_version\":\"2018-08-31\",\
    \"resources\":{\"a\":{\"type\":\"Test::Box\",\"properties\":{\"size\":1,\"zone\":\"z\"}}}}}\n";

// How many calls work before the one that fails where the drive ends well; each fault before ends with 6,
// with the text of whole lines.
fn calls_of(alloc: Global, script: &[u8], growth: Growth) -> Result<Option<usize>, AllocError> {
    for works in 0..64 {
        let (status, sink) = driven(
            alloc,
            script,
            keeper(alloc, growth, works, KeptAnswer::Fails)?,
        )?;
        if status == 0 {
            return Ok(Some(works));
        }
        if status != 6 || !is_text_of_lines(alloc, script, sink.held())? {
            return Ok(None);
        }
    }
    Ok(None)
}

#[test]
fn a_keeper_fails_at_each_call(rt: HostRuntime) -> Result<(), Fail> {
    let script = joined(rt.alloc(), LONG)?;
    let steady = calls_of(rt.alloc(), script.as_bytes(), Growth::Steady)?;
    let growing = calls_of(rt.alloc(), script.as_bytes(), Growth::Growing)?;
    assert!(rt; steady.is_some());
    assert!(rt; growing > steady);
    Ok(())
}

// The answer of which call, and the status; the calls are the opening, its append, and a restart's reading.
const REFUSED: &[(usize, KeptAnswer, u8)] = &[
    (0, KeptAnswer::Foreign, 8),
    (0, KeptAnswer::Fails, 6),
    (1, KeptAnswer::Fails, 6),
    (2, KeptAnswer::Foreign, 8),
    (2, KeptAnswer::Differs, 8),
    (2, KeptAnswer::Fails, 6),
    (3, KeptAnswer::Fails, 6),
    (4, KeptAnswer::Fails, 0),
];

#[test]
fn an_opening_and_a_restart_are_refused(rt: HostRuntime) -> Result<(), Fail> {
    for (works, last, wanted) in REFUSED {
        let keeper = keeper(rt.alloc(), Growth::Steady, *works, *last)?;
        let (status, _sink) = driven(rt.alloc(), b"restart\n", keeper)?;
        assert_eq!(rt; status, *wanted, "{} {:?}", works, last);
    }
    Ok(())
}
