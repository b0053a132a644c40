//! Lines and limits from outside, for pieces of each size; faults at each call; std's readers once.
use super::*;
use std::alloc::{AllocError, Global};
use std::io;
use std::io::Read;
use std::process::Abort;
use std::test::Fail;

// A letter for the answer that ended the reading.
fn letter(next: &Next) -> u8 {
    match next {
        Next::Line(_) => b'l',
        Next::End => b'E',
        Next::LineTooLong => b'L',
        Next::ScriptTooLong => b'S',
        Next::ReadFault => b'F',
        Next::Memory => b'M',
    }
}

// All lines that a source gives, each with `;` behind, then the letter of the last answer.
fn told<S: Source>(alloc: Global, source: &mut S) -> Result<Vec<u8>, AllocError> {
    let mut reader = LineReader::new(alloc);
    let mut text = Vec::new(alloc);
    for _ in 0..1_000 {
        match reader.next(source) {
            Next::Line(line) => {
                text.extend_from_slice(line.as_slice())?;
                text.push(b';')?;
            }
            last => {
                text.push(letter(&last))?;
                return Ok(text);
            }
        }
    }
    Ok(text)
}

// The same text in pieces of every size.
fn gives(rt: &impl Abort, alloc: Global, script: &[u8], want: &[u8]) -> Result<(), AllocError> {
    for piece in 1..6 {
        let mut source = MemSource::new(alloc, script, piece, &[])?;
        assert_eq!(rt; told(alloc, &mut source)?.as_slice(), want);
    }
    Ok(())
}

const SCRIPTS: &[(&[u8], &[u8])] = &[
    (b"", b"E"),
    (b"a", b"a;E"),
    (b"a\n", b"a;E"),
    (b"\n", b";E"),
    (b"\n\n", b";;E"),
    (b"ab\r\ncd", b"ab;cd;E"),
    (b"\r\n", b";E"),
    (b"a\r", b"a\r;E"),
    (b"a\r\r\n", b"a\r;E"),
    (b"a\rb\n\r", b"a\rb;\r;E"),
    (b"\n\r\n\r\r", b";;\r\r;E"),
    (b"\xff\xc3\n \n", b"\xff\xc3; ;E"),
];

#[test]
fn lines_are_cut_at_their_ends(rt: HostRuntime) -> Result<(), Fail> {
    for (script, want) in SCRIPTS {
        gives(&rt, rt.alloc(), script, want)?;
    }
    Ok(())
}

// The answer to a first line of so many `x` and this end.
fn long(alloc: Global, count: usize, end: &[u8]) -> Result<u8, AllocError> {
    let mut script = vec![in alloc; b'x'; count]?;
    script.extend_from_slice(end)?;
    let mut source = MemSource::new(alloc, &script, 65_536, &[])?;
    Ok(letter(&LineReader::new(alloc).next(&mut source)))
}

#[test]
fn a_line_has_1_048_576_bytes_at_most(rt: HostRuntime) -> Result<(), Fail> {
    assert_eq!(rt; long(rt.alloc(), 1_048_576, b"\n")?, b'l');
    assert_eq!(rt; long(rt.alloc(), 1_048_577, b"\n")?, b'L');
    assert_eq!(rt; long(rt.alloc(), 1_048_575, b"\r\n")?, b'l');
    assert_eq!(rt; long(rt.alloc(), 1_048_576, b"\r\n")?, b'L');
    assert_eq!(rt; long(rt.alloc(), 1_048_576, b"")?, b'l');
    assert_eq!(rt; long(rt.alloc(), 1_048_577, b"")?, b'L');
    Ok(())
}

// A source that goes on for ever: buffers full of `x`, with this as the last byte.
#[derive(Drop)]
struct Endless {
    last: u8,
}

impl Source for Endless {
    ghost use Rattle.std.specs.Prelude.{None};

    ghost left = { λ _. None };

    ghost faults = { λ _. 0 };

    fn read(&mut self, buf: &mut [u8]) -> Got {
        buf.fill(b'x');
        let end = buf.len() - 1;
        buf[end] = self.last;
        Got::Bytes(buf.len())
    }
}

// How many lines it gives, and the answer that ends them.
fn counted(alloc: Global, source: &mut Endless) -> (u32, u8) {
    let mut reader = LineReader::new(alloc);
    for lines in 0..1_000_000 {
        match reader.next(source) {
            Next::Line(_) => {}
            last => return (lines, letter(&last)),
        }
    }
    (1_000_000, b'l')
}

#[test]
fn a_source_that_goes_on_for_ever_ends(rt: HostRuntime) -> Result<(), Fail> {
    assert_eq!(rt; counted(rt.alloc(), &mut Endless { last: b'x' }), (0, b'L'));
    assert_eq!(rt;
        counted(rt.alloc(), &mut Endless { last: b'\n' }),
        (65_536, b'S')
    );
    Ok(())
}

#[test]
fn the_listed_read_fails(rt: HostRuntime) -> Result<(), Fail> {
    let wants: [&[u8]; 5] = [b"F", b"F", b"ab;F", b"ab;cd;F", b"ab;cd;E"];
    for (call, want) in wants.iter().enumerate() {
        let mut source = MemSource::new(rt.alloc(), b"ab\ncd\n", 2, &[call as u64 + 1])?;
        assert_eq!(rt; told(rt.alloc(), &mut source)?.as_slice(), *want);
        assert_eq!(rt; source.faults(), u64::from(call < 4));
    }
    Ok(())
}

#[test]
fn the_listed_write_fails(rt: HostRuntime) -> Result<(), Fail> {
    let wants: [&[u8]; 4] = [b"", b"ab", b"abcd", b"abcde"];
    for (call, want) in wants.iter().enumerate() {
        let mut sink = MemSink::new(rt.alloc(), 2, &[call as u64 + 1])?;
        let put = put_all(&mut sink, b"abcde");
        assert_eq!(rt;
            put,
            if call < 3 {
                Err(PutFault::WriteFault)
            } else {
                Ok(())
            }
        );
        assert_eq!(rt; sink.held(), *want);
        assert_eq!(rt; sink.faults(), u64::from(call < 3));
    }
    Ok(())
}

// A reader that fails at once.
#[derive(Drop)]
struct Broken;

impl Read for Broken {
    fn read(&mut self, _buf: &mut [u8]) -> io::Result<usize> {
        Err(io::ErrorKind::BrokenPipe.into())
    }
}

#[test]
fn readers_of_std(rt: HostRuntime) -> Result<(), Fail> {
    let mut slice = StdSource::new(b"ab\r\nc".as_slice());
    assert_eq!(rt;
        told(rt.alloc(), &mut slice)?.as_slice(),
        b"ab;c;E".as_slice()
    );
    assert_eq!(rt; slice.faults(), 0);
    let mut broken = StdSource::new(Broken);
    assert_eq!(rt; told(rt.alloc(), &mut broken)?.as_slice(), b"F".as_slice());
    assert_eq!(rt; broken.faults(), 1);
    Ok(())
}

#[test]
fn writers_of_std(rt: HostRuntime) -> Result<(), Fail> {
    let mut room = [b'.'; 4];
    let mut sink = StdSink::new(room.as_mut_slice());
    assert_eq!(rt; put_all(&mut sink, b"abc"), Ok(()));
    assert_eq!(rt; sink.faults(), 0);
    assert_eq!(rt; put_all(&mut sink, b"de"), Err(PutFault::WriteFault));
    assert_eq!(rt; sink.faults(), 1);
    assert_eq!(rt; room, [b'a', b'b', b'c', b'd']);
    Ok(())
}
