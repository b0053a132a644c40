//! A source and a sink in memory: the text of a run, each call that fails in turn, and lines that are too long.
ghost use Rattle.std.specs.Prelude.{◌<◌};

use crate::fixtures::{CREATE, CREATED, drives, joined};
use converge_call::Outcome;
use heat_io::{MemSink, MemSource};
use std::alloc::{AllocError, Global};
use std::test::Fail;

// How a drive ends.
fn ends(alloc: Global, source: &mut MemSource, sink: &mut MemSink) -> Result<u8, AllocError> {
    let Outcome { status, end } = drives(alloc, source, sink)?;
    let _ = end.give_back();
    Ok(status.code())
}

// How it ends, and what it writes, with a source that moves so many bytes at a time and fails at these calls.
fn written(
    alloc: Global,
    script: &[u8],
    piece: usize,
    fails: &[u64],
) -> Result<(u8, MemSink), AllocError>
    requires { 0 < piece }
{
    let mut source = MemSource::new(alloc, script, piece, fails)?;
    let mut sink = MemSink::new(alloc, 4096, &[])?;
    let status = ends(alloc, &mut source, &mut sink)?;
    Ok((status, sink))
}

// Whether a create and its run, in pieces of so many bytes, end well and write so.
fn runs_in_pieces(alloc: Global, piece: usize) -> Result<bool, AllocError>
    requires { 0 < piece }
{
    let script = joined(alloc, &[CREATE, "run\n"])?;
    let (status, sink) = written(alloc, script.as_bytes(), piece, &[])?;
    Ok(status == 0 && sink.held() == CREATED.as_bytes())
}

#[test]
fn a_run_has_its_text_in_pieces_of_any_size(rt: HostRuntime) -> Result<(), Fail> {
    assert!(rt; runs_in_pieces(rt.alloc(), 4096)?);
    assert!(rt; runs_in_pieces(rt.alloc(), 30)?);
    assert!(rt; runs_in_pieces(rt.alloc(), 1)?);
    Ok(())
}

// How many bytes the whole lines among the first ones take.
fn whole_lines(script: &[u8], first: usize) -> usize {
    let mut end = 0;
    for (i, byte) in script.iter().enumerate() {
        if i < first && *byte == b'\n' {
            end = i + 1;
        }
    }
    end
}

// Whether a source of 30 bytes a call that fails at this call leaves the text of the whole lines that came.
fn read_fails_at(alloc: Global, script: &[u8], call: u64) -> Result<bool, AllocError> {
    let (status, sink) = written(alloc, script, 30, &[call])?;
    let came = (call as usize).saturating_sub(1).saturating_mul(30);
    let whole = script.get(..whole_lines(script, came)).unwrap_or(script);
    let (_, before) = written(alloc, whole, 4096, &[])?;
    Ok(status == 4 && sink.held() == before.held())
}

// A script that a source of 30 bytes a call gives in five calls, with one more for its end.
const MIXED: &[&str] = &[CREATE, "run\nresources s\n\nbogus\n"];

#[test]
fn a_source_fails_at_each_call(rt: HostRuntime) -> Result<(), Fail> {
    let script = joined(rt.alloc(), MIXED)?;
    for call in 1..=6 {
        assert!(rt;
            read_fails_at(rt.alloc(), script.as_bytes(), call)?,
            "{}",
            call
        );
    }
    Ok(())
}

// How a drive into a sink of ten bytes a call ends that fails at this call, and what it writes.
fn write_fails_at(alloc: Global, script: &[u8], call: u64) -> Result<(u8, MemSink), AllocError> {
    let mut source = MemSource::new(alloc, script, 4096, &[])?;
    let mut sink = MemSink::new(alloc, 10, &[call])?;
    let status = ends(alloc, &mut source, &mut sink)?;
    Ok((status, sink))
}

#[test]
fn a_sink_fails_at_each_call(rt: HostRuntime) -> Result<(), Fail> {
    let script = joined(rt.alloc(), MIXED)?;
    let (_, all) = written(rt.alloc(), script.as_bytes(), 4096, &[])?;
    for call in 1..=22 {
        let (status, sink) = write_fails_at(rt.alloc(), script.as_bytes(), call)?;
        assert_eq!(rt; status, 5, "{}", call);
        assert!(rt; all.held().starts_with(sink.held()), "{}", call);
        assert!(rt; sink.held().len() < all.held().len(), "{}", call);
    }
    Ok(())
}

// How a drive of one comment line of so many bytes ends, with this behind it.
fn long_line_ends(alloc: Global, length: usize, end: &[u8]) -> Result<u8, AllocError> {
    let mut script = Vec::from_elem(alloc, b'#', length)?;
    script.extend_from_slice(end)?;
    Ok(written(alloc, &script, 4096, &[])?.0)
}

// A line's length, its end, and the status.
const LENGTHS: &[(usize, &[u8], u8)] = &[
    (1_048_576, b"\n", 0),
    (1_048_577, b"\n", 3),
    (1_048_575, b"\r\n", 0),
    (1_048_576, b"\r\n", 3),
    (1_048_576, b"", 0),
    (1_048_577, b"", 3),
];

#[test]
fn a_line_is_too_long_past_its_limit(rt: HostRuntime) -> Result<(), Fail> {
    for (length, end, status) in LENGTHS {
        assert_eq!(rt;
            long_line_ends(rt.alloc(), *length, end)?,
            *status,
            "{}",
            length
        );
    }
    Ok(())
}
