//! A snapshot's bytes: whatever the order in which changes made a state, its tables stand in one order there.
ghost use Rattle.state_images.specs.Images.{IsMade};

use crate::digits::bytes_of;
use crate::spelled_changes::changes_at;
use core_state::{Batch, State};
use row_codec::Sheet;
use snapshot_codec::{fill, size};
use state_images::replay;
use std::alloc::{AllocError, Global};
use std::process::Abort;
use std::test::Fail;

/// A stack s, number 1, traversal 1, CREATE_IN_PROGRESS, without a plan.
const STACK: &str = "01 0000000000000001 73 0000000000000001 0000000000000001 01 01 00";

/// The update node of a with row 1, alone.
const GRAPH: &str =
    "05 0000000000000001 73 0000000000000001 00 0000000000000001 61 0000000000000001 0000000000000000";

/// That node is done, and was given nothing.
const POINT: &str = "06 0000000000000001 73 0000000000000000 0000000000000000 01";

const PAST: &str = "0e 0000000000000001 73 01 00";

/// Row 1 of s, named a, of kind K, CREATE_IN_PROGRESS, engine 1's.
const ROW: &str =
    "03 0000000000000001 0000000000000001 73 0000000000000001 61 0000000000000001 4b 0000000000000000 0000000000000000 01 01 0000000000000001 0000000000000000 00 00 0000000000000000 00 00 01 0000000000000001 0000000000000000 00";

const LETTER: &str = "07 0000000000000002 0000000000000001 73 0000000000000001 0000000000000000";

/// Engine 1 has row 1 for letter 1.
const JOB: &str =
    "09 0000000000000001 0000000000000001 0000000000000001 73 0000000000000001 0000000000000000 0000000000000001 00";

const ENGINE: &str = "0b 0000000000000001";

const TOKEN: &str = "0f 0000000000000001 73 0000000000000001 61 0000000000000002";

const NUMBERS: &str =
    "0d 0000000000000003 0000000000000003 0000000000000003 0000000000000003 0000000000000003";

/// The tables in a snapshot's order.
const SNAPSHOT: [&str; 10] = [
    STACK, GRAPH, POINT, PAST, ROW, LETTER, JOB, ENGINE, TOKEN, NUMBERS,
];

/// In another one that makes the same state.
const SCRAMBLED: [&str; 10] = [
    NUMBERS, TOKEN, ENGINE, JOB, LETTER, ROW, STACK, PAST, GRAPH, POINT,
];

// The bytes of ten changes.
fn payload(alloc: Global, changes: [&str; 10]) -> Result<Vec<u8>, AllocError> {
    let mut bytes = bytes_of(alloc, "000000000000000a")?;
    for change in changes {
        bytes.extend_from_slice(&bytes_of(alloc, change)?)?;
    }
    Ok(bytes)
}

// Whether the snapshot of the state that the first bytes make has the second ones.
fn is_written_as(alloc: Global, made: &[u8], snapshot: &[u8]) -> Result<bool, AllocError> {
    let mut lists = Batch::new(alloc);
    lists.push(changes_at(alloc, made)?)?;
    match replay(alloc, lists)? {
        Some(state) => Ok(written(alloc, &state)?.as_slice() == snapshot),
        None => Ok(false),
    }
}

// The bytes of the state's snapshot.
fn written(alloc: Global, state: &State) -> Result<Sheet, AllocError>
    requires { IsMade state.now.state }
{
    let size = size(alloc, state);
    if size == usize::MAX {
        return Err(AllocError);
    }
    let mut sheet = Sheet::new(alloc);
    sheet.reserve(size)?;
    fill(state, &mut sheet);
    Ok(sheet)
}

#[test]
fn tables_stand_in_one_order(rt: HostRuntime) -> Result<(), Fail> {
    let snapshot = payload(rt.alloc(), SNAPSHOT)?;
    for changes in [SNAPSHOT, SCRAMBLED] {
        let made = payload(rt.alloc(), changes)?;
        assert!(rt; is_written_as(rt.alloc(), &made, &snapshot)?);
    }
    Ok(())
}
