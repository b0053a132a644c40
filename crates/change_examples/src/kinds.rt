//! Each kind of change: its bytes are read, written again, and refused where they are cut or have one more.
use crate::digits::bytes_of;
use core_state::{Batch, Change, ready_all};
use heat_plan::Act;
use row_codec::{read, size, write};
use std::alloc::{AllocError, Global};
use std::process::Abort;
use std::test::Fail;

/// A stack s, number 2, traversal 3, CREATE_IN_PROGRESS; its plan has an item a of the kind K with the
/// attribute x, the property p of -2 and the policy Retain, an output o of a list of null and true, the
/// parameter q of the text w, the condition c that is false, an empty file f, and the absent name b.
const PUT_STACK: &str =
    "0000000000000001 01 0000000000000001 73 0000000000000002 0000000000000003 01 01 01 \
    0000000000000001 0000000000000001 61 0000000000000001 4b 0000000000000001 0000000000000001 78 \
    0000000000000000 0000000000000001 0000000000000001 70 03 fffffffffffffffe 0000000000000000 01 \
    0000000000000001 0000000000000001 6f 05 0000000000000002 00 02 \
    0000000000000001 0000000000000001 71 04 0000000000000001 77 \
    0000000000000001 0000000000000001 63 00 \
    0000000000000001 0000000000000001 66 0000000000000000 0000000000000001 0000000000000001 62";

/// A row 7 of the stack s, named a, of the kind K, UPDATE_IN_PROGRESS in traversal 3, without properties; it is
/// to get the property p, a map that has false under k; its id is i, it requires row 5, was replaced by row 9,
/// is engine 4's, and its key is 2^62 - 1.
const PUT_ROW: &str =
    "0000000000000001 03 0000000000000007 0000000000000001 73 0000000000000001 61 \
    0000000000000001 4b 0000000000000000 0000000000000000 02 01 0000000000000003 \
    0000000000000000 01 0000000000000001 0000000000000001 70 06 0000000000000001 0000000000000001 6b 01 \
    01 0000000000000001 69 0000000000000000 \
    0000000000000001 0000000000000005 00 01 0000000000000009 01 0000000000000004 3fffffffffffffff 00";

const DROP_STACK: &str = "0000000000000001 02 0000000000000001 73";

const DROP_ROW: &str = "0000000000000001 04 0000000000000007";

/// The update node of a with row 7, the clean-up node of row 5, and the edge from the first to the second.
const PUT_GRAPH: &str = "0000000000000001 05 0000000000000001 73 \
    0000000000000002 00 0000000000000001 61 0000000000000007 01 0000000000000005 \
    0000000000000001 0000000000000000 0000000000000001";

/// The first node of s was given a's row 7 by the node at 1, without facts, and is done.
const PUT_POINT: &str = "0000000000000001 06 0000000000000001 73 0000000000000000 \
    0000000000000001 0000000000000001 01 0000000000000001 61 0000000000000007 00 01";

const SEND: &str =
    "0000000000000001 07 0000000000000002 0000000000000001 73 0000000000000003 0000000000000001";

const DROP: &str = "0000000000000001 08 0000000000000002";

/// Engine 4 is polling for letter 2 at row 7.
const PUT_JOB: &str = "0000000000000001 09 0000000000000004 \
    0000000000000002 0000000000000001 73 0000000000000003 0000000000000001 0000000000000007 02";

const END_JOB: &str = "0000000000000001 0a 0000000000000004";

const ENLIST: &str = "0000000000000001 0b 0000000000000005";

const STOP: &str = "0000000000000001 0c 0000000000000005";

/// The last of the next numbers is worn out.
const NUMBERS: &str = "0000000000000001 0d 0000000000000002 0000000000000004 0000000000000008 \
    0000000000000006 4000000000000000";

const PUT_PAST: &str = "0000000000000001 0e 0000000000000001 73 01 00";

const RELEASE: &str =
    "0000000000000001 0f 0000000000000001 73 0000000000000001 61 0000000000000007";

// Two changes in one list, and none.
const TWO: &str = "0000000000000002 04 0000000000000007 0c 0000000000000005";

const NONE: &str = "0000000000000000";

// Whether the bytes are read, and written again as they are.
fn stands(alloc: Global, bytes: &[u8]) -> Result<bool, AllocError> {
    let Some(changes) = read(alloc, bytes)? else {
        return Ok(false);
    };
    let mut all = Batch::new(alloc);
    for change in changes {
        all.push(change)?;
    }
    let ready = ready_all(alloc, all)?;
    let sheet = write(alloc, ready.as_slice())?;
    Ok(sheet.as_slice() == bytes && size(alloc, ready.as_slice()) == bytes.len())
}

// Whether each first part of the bytes is refused, and they with a byte more.
fn stands_alone(alloc: Global, bytes: &[u8]) -> Result<bool, AllocError> {
    for count in 0..bytes.len() {
        if read(alloc, &bytes[..count])?.is_some() {
            return Ok(false);
        }
    }
    let mut more = Vec::from_slice(alloc, bytes)?;
    more.push(0)?;
    Ok(read(alloc, &more)?.is_none())
}

#[test]
fn each_kind_is_read_and_written(rt: HostRuntime) -> Result<(), Fail> {
    let kinds = [
        PUT_STACK, DROP_STACK, PUT_ROW, DROP_ROW, PUT_GRAPH, PUT_POINT, SEND, DROP, PUT_JOB,
        END_JOB, ENLIST, STOP, NUMBERS, PUT_PAST, RELEASE, TWO, NONE,
    ];
    for kind in kinds {
        let bytes = bytes_of(rt.alloc(), kind)?;
        assert!(rt; stands(rt.alloc(), &bytes)?);
    }
    Ok(())
}

#[test]
fn no_kind_is_read_cut_or_with_more(rt: HostRuntime) -> Result<(), Fail> {
    let kinds = [
        PUT_STACK, DROP_STACK, PUT_ROW, DROP_ROW, PUT_GRAPH, PUT_POINT, SEND, DROP, PUT_JOB,
        END_JOB, ENLIST, STOP, NUMBERS, PUT_PAST, RELEASE, TWO, NONE,
    ];
    for kind in kinds {
        let bytes = bytes_of(rt.alloc(), kind)?;
        assert!(rt; stands_alone(rt.alloc(), &bytes)?);
    }
    Ok(())
}

// Whether the change is the row of its bytes.
fn is_the_row(change: &Change) -> bool {
    match change {
        Change::PutRow(row) => {
            row.no.get() == 7
                && row.act == Act::Update
                && row.trav.get() == 3
                && row.replaces.is_none()
                && row.key == 0x3fff_ffff_ffff_ffff
        }
        _ => false,
    }
}

#[test]
fn a_row_is_the_one_of_its_bytes(rt: HostRuntime) -> Result<(), Fail> {
    let bytes = bytes_of(rt.alloc(), PUT_ROW)?;
    match read(rt.alloc(), &bytes)? {
        Some(changes) => {
            assert_eq!(rt; changes.len(), 1);
            for change in &changes {
                assert!(rt; is_the_row(change));
            }
        }
        None => assert!(rt; false),
    }
    Ok(())
}
