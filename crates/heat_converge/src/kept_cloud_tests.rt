//! The cloud file on a disk: one that is missing, one that is stored and loaded again, and those that can't be.
use crate::empty_cloud;
use crate::file_fault::line_for;
use crate::kept_cloud::{KeepFault, load, store};
use cloud_file::text;
use heat_value::Text;
use std::alloc::{AllocError, Global};
use std::fs;
use std::test::Fail;

fn text_of(alloc: Global, text: &str) -> Result<Text, AllocError> {
    Text::from_str(alloc, text)
}

// Loads the cloud of a file, and stores it again.
fn again(rt: &HostRuntime, path: &Text) -> Result<(), KeepFault> {
    let cloud = load(rt, path)?;
    store(rt, path, &cloud)
}

// What is loaded from a file, as text; none where it isn't.
fn loaded(rt: &HostRuntime, path: &Text) -> Result<Option<Text>, AllocError> {
    match load(rt, path) {
        Ok(cloud) => Ok(Some(text(rt.alloc(), &cloud)?)),
        Err(KeepFault::File(_)) => Ok(None),
        Err(KeepFault::Memory) => Err(AllocError),
    }
}

// What is told of a file that can't be loaded and stored again.
fn told(rt: &HostRuntime, path: &str) -> Result<Option<Text>, AllocError> {
    match again(rt, &Text::from_str(rt.alloc(), path)?) {
        Ok(()) => Ok(None),
        Err(KeepFault::File(fault)) => Ok(Some(line_for(rt.alloc(), &fault)?)),
        Err(KeepFault::Memory) => Err(AllocError),
    }
}

#[test]
fn a_missing_file_is_an_empty_cloud(rt: HostRuntime) -> Result<(), Fail> {
    let empty = text(rt.alloc(), &empty_cloud(rt.alloc())?)?;
    let loaded = loaded(&rt, &text_of(rt.alloc(), "no_such_cloud")?)?;
    assert_eq!(rt; loaded, Some(empty));
    Ok(())
}

#[test]
fn a_file_is_replaced_whole(rt: HostRuntime) -> Result<(), Fail> {
    fs::write(
        &rt,
        "cloud_of_the_test",
        br#"{"quotas":{"K":1},"faults":[1]}"#,
    )?;
    assert_eq!(rt; told(&rt, "cloud_of_the_test")?, None);
    let wanted = br#"{"alive":[],"broken":{},"delays":{},"quotas":{"K":1}}"#;
    assert_eq!(rt;
        fs::read(&rt, "cloud_of_the_test")?.as_slice(),
        wanted.as_slice()
    );
    assert_eq!(rt; fs::read(&rt, "cloud_of_the_test.new").is_err(), true);
    Ok(())
}

#[test]
fn what_cannot_be_read_or_written_is_told(rt: HostRuntime) -> Result<(), Fail> {
    fs::write(&rt, "no_cloud_of_the_test", b"[]")?;
    let wrong = text_of(rt.alloc(), "its shape is wrong at []")?;
    assert_eq!(rt; told(&rt, "no_cloud_of_the_test")?, Some(wrong));
    assert_eq!(rt;
        fs::read(&rt, "no_cloud_of_the_test")?.as_slice(),
        b"[]".as_slice()
    );
    for place in [".", "no such folder/file"] {
        let lost = text_of(rt.alloc(), "it can't be read or written")?;
        assert_eq!(rt; told(&rt, place)?, Some(lost));
    }
    Ok(())
}
