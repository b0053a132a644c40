//! What a crash leaves, byte by byte, on worked examples; which calls fail; a fuse; real files.
use heat_disk::{Disk, DiskFailed, FileDisk, Fuse, Half, MemDisk};
use heat_value::Text;
use std::alloc::{AllocError, Global};
use std::os::unix::fs::symlink;
use std::process::Abort;
use std::test::Fail;
use std::{fs, io};

// Makes one call, with just the room that it needs, and says whether it succeeded: `w1ab` writes `ab`
// at 1, `c2` cuts to 2, `s` syncs, `l` and `r` ask for the length and read, all on First. `S` syncs
// Second.
fn makes(disk: &mut MemDisk, call: &[u8]) -> Result<bool, AllocError> {
    match call {
        [b'w', at @ b'0'..=b'9', bytes @ ..] => writes(disk, u64::from(*at - b'0'), bytes),
        [b'c', len @ b'0'..=b'9'] => cuts(disk, u64::from(*len - b'0')),
        [b's'] => syncs(disk, Half::First),
        [b'S'] => syncs(disk, Half::Second),
        [b'l'] => Ok(disk.len(Half::First).is_ok()),
        _ => Ok(disk.read_at(Half::First, 1, &mut [0; 4]).is_ok()),
    }
}

fn writes(disk: &mut MemDisk, at: u64, bytes: &[u8]) -> Result<bool, AllocError> {
    if at > disk.bytes(Half::First).len() as u64 || bytes.len() > 9 || at > 9 {
        return Ok(false);
    }
    disk.room(Half::First, at + bytes.len() as u64, bytes.len() as u64, 1)?;
    Ok(disk.write_at(Half::First, at, bytes).is_ok())
}

fn cuts(disk: &mut MemDisk, len: u64) -> Result<bool, AllocError> {
    if len > disk.bytes(Half::First).len() as u64 {
        return Ok(false);
    }
    disk.room(Half::First, 0, 0, 1)?;
    Ok(disk.cut(Half::First, len).is_ok())
}

fn syncs(disk: &mut MemDisk, half: Half) -> Result<bool, AllocError> {
    disk.room(half, 0, 0, 1)?;
    Ok(disk.sync(half).is_ok())
}

// Makes the calls, of which the ones with an `n` below them have to fail, and counts those.
fn runs(
    rt: &impl Abort,
    disk: &mut MemDisk,
    calls: &[u8],
    answers: &[u8],
) -> Result<(), AllocError> {
    let mut failed = 0u64;
    for (call, answer) in calls.split(|b| *b == b' ').zip(answers) {
        let made = makes(disk, call)?;
        assert_eq!(rt; made, *answer == b'y');
        failed = failed.saturating_add(u64::from(!made));
    }
    assert_eq!(rt; disk.faults(), failed);
    Ok(())
}

// A crash with this byte where anything may stand leaves this of First.
fn leaves(
    rt: &impl Abort,
    disk: &MemDisk,
    fill: Option<u8>,
    want: &[u8],
) -> Result<(), AllocError> {
    let found = disk.crash(fill)?;
    assert_eq!(rt; found.bytes(Half::First), want);
    Ok(())
}

// A line has the number of the call that fails, the calls, their answers, what First then reads as,
// and the longest that a crash leaves of it, with `?` where anything may stand.
fn tries(rt: &impl Abort, alloc: Global, line: &[u8]) -> Result<(), AllocError> {
    let mut parts = line.split(|b| *b == b'|');
    if let (Some([number]), Some(calls), Some(answers), Some(seen), Some(longest)) = (
        parts.next(),
        parts.next(),
        parts.next(),
        parts.next(),
        parts.next(),
    ) {
        let mut disk = MemDisk::new(alloc, &[u64::from(number.saturating_sub(b'0'))])?;
        runs(rt, &mut disk, calls, answers)?;
        leaves(rt, &disk, None, seen)?;
        leaves(rt, &disk, Some(b'?'), longest)?;
    } else {
        assert!(rt; false);
    }
    Ok(())
}

fn tries_all(rt: &impl Abort, alloc: Global, lines: &[u8]) -> Result<(), AllocError> {
    for line in lines.split(|b| *b == b'\n') {
        tries(rt, alloc, line)?;
    }
    Ok(())
}

#[test]
fn crash_images(rt: HostRuntime) -> Result<(), Fail> {
    tries_all(
        &rt,
        rt.alloc(),
        b"0|s|y||
0|w0abc|y|abc|???
0|w0abc S|yy|abc|???
0|w0abc s|yy|abc|abc
0|w0abcd s w1XY|yyy|aXYd|a??d
0|w0abcd s w3XY|yyy|abcXY|abc??
0|w0abcd s c1|yyy|a|abcd
0|w0abcd s c1 w1X|yyyy|aX|a?cd
0|w0ab s w2XYZ c1|yyyy|a|ab???
0|w0abcd s c2 s|yyyy|ab|ab",
    )?;
    Ok(())
}

#[test]
fn the_listed_call_fails(rt: HostRuntime) -> Result<(), Fail> {
    tries_all(
        &rt,
        rt.alloc(),
        b"1|w0ab s|ny||
2|w0ab s w1X c1 l r|ynyyyy|a|??
3|w0ab s w1X c1 l r|yynyyy|a|ab
4|w0ab s w1X c1 l r|yyynyy|aX|a?
5|w0ab s w1X c1 l r|yyyyny|a|a?
6|w0ab s w1X c1 l r|yyyyyn|a|a?
7|w0ab s w1X c1 l r|yyyyyy|a|a?",
    )?;
    Ok(())
}

fn three_calls<D: Disk>(disk: &mut D) -> [bool; 3] {
    [
        disk.len(Half::First).is_ok(),
        disk.len(Half::Second).is_ok(),
        disk.len(Half::First).is_ok(),
    ]
}

#[test]
fn a_fuse_passes_so_many(rt: HostRuntime) -> Result<(), Fail> {
    let mut fuse = Fuse::new(MemDisk::holding(rt.alloc(), b"ab", &[], &[])?, 2);
    assert_eq!(rt; three_calls(&mut fuse), [true, true, false]);
    assert_eq!(rt; fuse.inner().bytes(Half::First), b"ab".as_slice());
    Ok(())
}

// Takes away what a run left at this path, and at the one with `.2` behind it.
fn clears(rt: &HostRuntime, path: &str, second: &str) -> io::Result<()> {
    for name in [path, second] {
        if fs::exists(rt, name)? {
            fs::remove_file(rt, name)?;
        }
    }
    Ok(())
}

// The half is then these bytes and synced, if each call succeeds.
fn puts(disk: &mut FileDisk, half: Half, bytes: &[u8]) -> Result<u8, AllocError> {
    let len = bytes.len() as u64;
    disk.room(half, len, len, 3)?;
    let mut passed = 0;
    if disk.cut(half, 0).is_ok() {
        passed += 1;
    }
    if disk.write_at(half, 0, bytes).is_ok() {
        passed += 1;
    }
    if disk.sync(half).is_ok() {
        passed += 1;
    }
    Ok(passed)
}

#[test]
fn a_file_keeps_what_was_synced(rt: HostRuntime) -> Result<(), Fail> {
    clears(&rt, "a_file_of_the_test", "a_file_of_the_test.2")?;
    let path = Text::from_str(rt.alloc(), "a_file_of_the_test")?;
    let mut disk = FileDisk::at(&rt, &path);
    assert_eq!(rt; puts(&mut disk, Half::First, b"abc")?, 3);
    assert_eq!(rt; puts(&mut disk, Half::Second, b"d")?, 3);
    let mut again = FileDisk::at(&rt, &path);
    let mut buf = [b'.'; 4];
    assert_eq!(rt; again.len(Half::First), Ok(3));
    assert_eq!(rt; again.read_at(Half::First, 1, &mut buf), Ok(2));
    assert_eq!(rt; buf, [b'b', b'c', b'.', b'.']);
    clears(&rt, "a_file_of_the_test", "a_file_of_the_test.2")?;
    Ok(())
}

#[test]
fn second_lies_behind_the_path(rt: HostRuntime) -> Result<(), Fail> {
    clears(&rt, "another_of_the_test", "another_of_the_test.2")?;
    let mut disk = FileDisk::at(&rt, &Text::from_str(rt.alloc(), "another_of_the_test")?);
    assert_eq!(rt; puts(&mut disk, Half::Second, b"d")?, 3);
    assert_eq!(rt;
        fs::read(&rt, "another_of_the_test.2")?.as_slice(),
        b"d".as_slice()
    );
    clears(&rt, "another_of_the_test", "another_of_the_test.2")?;
    Ok(())
}

#[test]
fn a_file_out_of_reach_fails_each_call(rt: HostRuntime) -> Result<(), Fail> {
    let mut disk = FileDisk::at(&rt, &Text::from_str(rt.alloc(), "no such folder/file")?);
    assert_eq!(rt; puts(&mut disk, Half::Second, b"d")?, 0);
    assert_eq!(rt; disk.len(Half::Second), Err(DiskFailed));
    assert_eq!(rt; disk.read_at(Half::Second, 0, &mut [0]), Err(DiskFailed));
    assert_eq!(rt; disk.faults(), 5);
    Ok(())
}

// The lengths of both halves, and whether First can be written and synced.
fn four_calls(disk: &mut FileDisk) -> Result<[bool; 4], AllocError> {
    disk.room(Half::First, 1, 1, 2)?;
    Ok([
        disk.len(Half::First) == Ok(0),
        disk.len(Half::Second) == Ok(0),
        disk.write_at(Half::First, 0, b"a").is_ok(),
        disk.sync(Half::First).is_ok(),
    ])
}

#[test]
fn a_look_makes_nothing(rt: HostRuntime) -> Result<(), Fail> {
    clears(&rt, "nothing_of_the_test", "nothing_of_the_test.2")?;
    let path = Text::from_str(rt.alloc(), "nothing_of_the_test")?;
    let mut disk = FileDisk::look_at(&rt, &path);
    assert_eq!(rt; four_calls(&mut disk)?, [true, true, false, false]);
    assert_eq!(rt; disk.len(Half::First), Err(DiskFailed));
    assert_eq!(rt; disk.read_at(Half::Second, 3, &mut [0]), Ok(0));
    assert!(rt; !fs::exists(&rt, "nothing_of_the_test")?);
    assert!(rt; !fs::exists(&rt, "nothing_of_the_test.2")?);
    clears(&rt, "nothing_of_the_test", "nothing_of_the_test.2")?;
    Ok(())
}

#[test]
fn a_look_reads_what_is_there(rt: HostRuntime) -> Result<(), Fail> {
    clears(&rt, "seen_of_the_test", "seen_of_the_test.2")?;
    fs::write(&rt, "seen_of_the_test", b"abc")?;
    let mut disk = FileDisk::look_at(&rt, &Text::from_str(rt.alloc(), "seen_of_the_test")?);
    let mut buf = [b'.'; 2];
    assert_eq!(rt; disk.read_at(Half::First, 1, &mut buf), Ok(2));
    assert_eq!(rt; buf, [b'b', b'c']);
    disk.room(Half::First, 4, 1, 1)?;
    assert_eq!(rt; disk.write_at(Half::First, 0, b"x"), Err(DiskFailed));
    assert_eq!(rt; disk.faults(), 1);
    clears(&rt, "seen_of_the_test", "seen_of_the_test.2")?;
    Ok(())
}

// The null device takes each write and refuses to be synced.
#[test]
fn a_sync_that_failed_is_the_last_call(rt: HostRuntime) -> Result<(), Fail> {
    clears(&rt, "null_of_the_test", "null_of_the_test.2")?;
    symlink(&rt, "/dev/null", "null_of_the_test")?;
    let mut disk = FileDisk::at(&rt, &Text::from_str(rt.alloc(), "null_of_the_test")?);
    assert_eq!(rt; four_calls(&mut disk)?, [true, true, true, false]);
    assert_eq!(rt; four_calls(&mut disk)?, [false, true, false, false]);
    assert_eq!(rt; disk.faults(), 4);
    clears(&rt, "null_of_the_test", "null_of_the_test.2")?;
    Ok(())
}
