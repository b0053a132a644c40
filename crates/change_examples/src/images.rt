//! Images in bytes: those that changes don't make, those with which no book may be opened, and those that count.
ghost use Rattle.state_images.specs.Images.{IsMade};

use crate::digits::bytes_of;
use crate::spelled_changes::changes_at;
use core_state::{Batch, Change, State};
use state_images::{is_tied, replay, snapshot_of};
use std::alloc::{AllocError, Global};
use std::process::Abort;
use std::test::Fail;

// What becomes of an image.
#[derive(Clone, Copy, Debug, PartialEq, Eq)]
enum Fate {
    NotMade,
    Untied,
    Taken,
}

/// A stack s, number 1, traversal 1, CREATE_IN_PROGRESS, without a plan; two numbers of each sort are drawn.
const STACK: &str =
    "0000000000000002 01 0000000000000001 73 0000000000000001 0000000000000001 01 01 00 0d 0000000000000003 0000000000000003 0000000000000003 0000000000000003 0000000000000003";

/// Each of the images is the stack, and these changes behind it. A row is row 1 of s, named a, of kind K; a
/// letter is for its tenth node, where there is no graph.
const CASES: [(&str, &str, Fate); 12] = [
    (
        "a row that was created",
        "0000000000000001 03 0000000000000001 0000000000000001 73 0000000000000001 61 0000000000000001 4b 0000000000000000 0000000000000000 01 00 0000000000000001 0000000000000000 00 00 0000000000000000 00 00 00 0000000000000000 00",
        Fate::Taken,
    ),
    (
        "a letter for a node that isn't there",
        "0000000000000001 07 0000000000000001 0000000000000001 73 0000000000000001 0000000000000009",
        Fate::Taken,
    ),
    (
        "a point of a node that isn't there",
        "0000000000000001 06 0000000000000001 73 0000000000000009 0000000000000000 00",
        Fate::NotMade,
    ),
    (
        "numbers that fall",
        "0000000000000001 0d 0000000000000003 0000000000000003 0000000000000002 0000000000000003 0000000000000003",
        Fate::NotMade,
    ),
    (
        "a job of an engine that was drawn",
        "0000000000000002 03 0000000000000001 0000000000000001 73 0000000000000001 61 0000000000000001 4b 0000000000000000 0000000000000000 01 01 0000000000000001 0000000000000000 00 00 0000000000000000 00 00 01 0000000000000002 0000000000000000 00 09 0000000000000002 0000000000000002 0000000000000001 73 0000000000000001 0000000000000009 0000000000000001 00",
        Fate::Taken,
    ),
    (
        "a job of an engine not yet drawn",
        "0000000000000002 03 0000000000000001 0000000000000001 73 0000000000000001 61 0000000000000001 4b 0000000000000000 0000000000000000 01 01 0000000000000001 0000000000000000 00 00 0000000000000000 00 00 01 0000000000000003 0000000000000000 00 09 0000000000000003 0000000000000001 0000000000000001 73 0000000000000001 0000000000000009 0000000000000001 00",
        Fate::Untied,
    ),
    (
        "two jobs on one row",
        "0000000000000003 03 0000000000000001 0000000000000001 73 0000000000000001 61 0000000000000001 4b 0000000000000000 0000000000000000 01 01 0000000000000001 0000000000000000 00 00 0000000000000000 00 00 01 0000000000000002 0000000000000000 00 09 0000000000000002 0000000000000002 0000000000000001 73 0000000000000001 0000000000000009 0000000000000001 00 09 0000000000000001 0000000000000001 0000000000000001 73 0000000000000001 0000000000000009 0000000000000001 00",
        Fate::Untied,
    ),
    (
        "a row that replaces itself",
        "0000000000000001 03 0000000000000001 0000000000000001 73 0000000000000001 61 0000000000000001 4b 0000000000000000 0000000000000000 01 00 0000000000000001 0000000000000000 00 00 0000000000000000 01 0000000000000001 01 0000000000000001 00 0000000000000000 00",
        Fate::Untied,
    ),
    (
        "an update under way with its target",
        "0000000000000001 03 0000000000000001 0000000000000001 73 0000000000000001 61 0000000000000001 4b 0000000000000000 0000000000000000 02 01 0000000000000001 0000000000000000 01 0000000000000000 00 0000000000000000 00 00 00 0000000000000000 00",
        Fate::Taken,
    ),
    (
        "an update under way without a target",
        "0000000000000001 03 0000000000000001 0000000000000001 73 0000000000000001 61 0000000000000001 4b 0000000000000000 0000000000000000 02 01 0000000000000001 0000000000000000 00 00 0000000000000000 00 00 00 0000000000000000 00",
        Fate::Untied,
    ),
    (
        "a released token of no row",
        "0000000000000001 0f 0000000000000001 73 0000000000000001 61 0000000000000002",
        Fate::Taken,
    ),
    (
        "a released token of a row that stands",
        "0000000000000002 03 0000000000000001 0000000000000001 73 0000000000000001 61 0000000000000001 4b 0000000000000000 0000000000000000 03 00 0000000000000001 0000000000000000 00 00 0000000000000000 00 00 00 0000000000000000 00 0f 0000000000000001 73 0000000000000001 61 0000000000000001",
        Fate::Untied,
    ),
];

#[test]
fn images_are_taken_or_not(rt: HostRuntime) -> Result<(), Fail> {
    for (name, digits, fate) in CASES {
        assert!(rt; fate_of(rt.alloc(), digits)? == fate, "{name}");
    }
    Ok(())
}

#[test]
fn a_snapshot_gives_the_state_again(rt: HostRuntime) -> Result<(), Fail> {
    for (name, digits, fate) in CASES {
        if fate != Fate::NotMade {
            assert!(rt; is_kept(rt.alloc(), digits)?, "{name}");
        }
    }
    Ok(())
}

// What becomes of the stack with these changes.
fn fate_of(alloc: Global, digits: &str) -> Result<Fate, AllocError> {
    match replay(alloc, image(alloc, digits)?)? {
        Some(state) => tried(alloc, &state),
        None => Ok(Fate::NotMade),
    }
}

// What becomes of the state that changes made.
fn tried(alloc: Global, state: &State) -> Result<Fate, AllocError>
    requires { IsMade state.now.state }
{
    if is_tied(alloc, state)? {
        Ok(Fate::Taken)
    } else {
        Ok(Fate::Untied)
    }
}

// Whether the state with these changes is that of its snapshot.
fn is_kept(alloc: Global, digits: &str) -> Result<bool, AllocError> {
    match replay(alloc, image(alloc, digits)?)? {
        Some(state) => comes_back(alloc, &state),
        None => Ok(false),
    }
}

// Whether the changes of its snapshot make an equal state.
fn comes_back(alloc: Global, state: &State) -> Result<bool, AllocError>
    requires { IsMade state.now.state }
{
    let mut lists = Batch::new(alloc);
    lists.push(snapshot_of(alloc, state)?)?;
    match replay(alloc, lists)? {
        Some(again) => Ok(again.equals(state)),
        None => Ok(false),
    }
}

// The lists of changes of the image.
fn image(alloc: Global, digits: &str) -> Result<Batch<Batch<Change>>, AllocError> {
    let mut lists = Batch::new(alloc);
    lists.push(changes_of(alloc, STACK)?)?;
    lists.push(changes_of(alloc, digits)?)?;
    Ok(lists)
}

// The changes that the digits spell.
fn changes_of(alloc: Global, digits: &str) -> Result<Batch<Change>, AllocError> {
    let bytes = bytes_of(alloc, digits)?;
    changes_at(alloc, &bytes)
}
