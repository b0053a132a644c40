//! Lines from outside, in single quotes: each form, and the first of two faults.
use crate::cases::{Case, Teller, fault_words, wrong_among};
use script_lines::{Line, Misread};
use std::alloc::{AllocError, Global};
use std::test::Fail;

// A word for what a line asks for.
fn word_of(line: &Line) -> &'static str {
    match line {
        Line::Blank => "blank",
        Line::Create(_, _) => "create",
        Line::Update(_, _) => "update",
        Line::Delete(_) => "delete",
        Line::Cancel(_) => "cancel",
        Line::Status(_) => "status",
        Line::Resources(_) => "resources",
        Line::Outputs(_) => "outputs",
        Line::Types(_) => "types",
        Line::Run(_) => "run",
        Line::Turn(_) => "turn",
        Line::Stop(_) => "stop",
        Line::Start => "start",
        Line::Restart => "restart",
    }
}

// A code, and its path where it has one.
fn noted(alloc: Global, why: &Misread) -> Result<String, AllocError> {
    match (why.code(), why.path()) {
        (Some(code), Some(path)) => fault_words(alloc, code, path),
        (Some(code), None) => String::from_str(alloc, code),
        (None, _) => Err(AllocError),
    }
}

// What a line of these bytes is read as.
fn bytes_told(alloc: Global, line: &[u8]) -> Result<String, AllocError> {
    match Line::read(alloc, line) {
        Ok(line) => String::from_str(alloc, word_of(&line)),
        Err(why) => noted(alloc, &why),
    }
}

// What the line is read as.
struct Read;

impl Teller for Read {
    fn told(&self, alloc: Global, given: &str) -> Result<String, AllocError> {
        let line = given.replace(alloc, "'", "\"")?;
        bytes_told(alloc, line.as_bytes())
    }
}

const FORMS: &[Case] = &[
    ("", "blank"),
    ("  # create", "blank"),
    ("create s {'template':null}", "create"),
    (" update  s.1   {'template':{}}  ", "update"),
    ("delete s", "delete"),
    ("cancel s", "cancel"),
    ("status s", "status"),
    ("resources s ", "resources"),
    ("outputs s", "outputs"),
    ("types {}", "types"),
    ("types 1", "types"),
    ("run", "run"),
    ("run 1", "run"),
    ("run 1000000", "run"),
    ("turn 1", "turn"),
    ("turn 4611686018427387903", "turn"),
    ("stop 2", "stop"),
    ("start", "start"),
    ("restart ", "restart"),
    (
        "create s {'disable_rollback':false,'files':{'f':'x'},'parameters':{'p':1},'template':0}",
        "create",
    ),
    ("create s {'template':1,'template':2}", "create"),
];

#[test]
fn each_form_is_read(rt: HostRuntime) -> Result<(), Fail> {
    let wrong = wrong_among(rt.alloc(), &Read, FORMS)?;
    assert_eq!(rt; wrong.as_str(), "");
    Ok(())
}

const FAULTS: &[Case] = &[
    ("bogus", "L02"),
    ("Run", "L02"),
    ("run#", "L02"),
    ("run\t1", "L02"),
    ("bogus 2", "L02"),
    ("create", "L03"),
    ("create s", "L03"),
    ("create 2 ", "L03"),
    ("delete", "L03"),
    ("status 2 s", "L03"),
    ("types", "L03"),
    ("run x 1", "L03"),
    ("turn", "L03"),
    ("start 1", "L03"),
    ("cancel 2", "L04"),
    ("create 2 {", "L04"),
    ("run 0", "L05"),
    ("run 01", "L05"),
    ("run +1", "L05"),
    ("run 1000001", "L05"),
    ("turn 4611686018427387904", "L05"),
    ("stop 99999999999999999999", "L05"),
    ("types {", "L06"),
    ("create s [1.5", "L06"),
    ("create s [1.5]", "L07 [0]"),
    ("types {'a':-0}", "L07 ['a']"),
    ("create s []", "L08 []"),
    ("create s {'colour':1}", "L08 []"),
    ("update s {'colour':1,'template':1}", "L08 ['colour']"),
    (
        "create s {'disable_rollback':null,'files':1,'template':1}",
        "L08 ['disable_rollback']",
    ),
    (
        "create s {'files':{'f':1},'parameters':null,'template':1}",
        "L08 ['files']",
    ),
    (
        "create s {'parameters':null,'template':1}",
        "L08 ['parameters']",
    ),
    ("create s 't'", "L08 []"),
];

#[test]
fn the_first_fault_is_told(rt: HostRuntime) -> Result<(), Fail> {
    let wrong = wrong_among(rt.alloc(), &Read, FAULTS)?;
    assert_eq!(rt; wrong.as_str(), "");
    Ok(())
}

// What the line is read as with a byte behind it that no UTF-8 has.
struct Spoiled;

impl Teller for Spoiled {
    fn told(&self, alloc: Global, given: &str) -> Result<String, AllocError> {
        let mut line = Vec::from_slice(alloc, given.as_bytes())?;
        line.push(0xff)?;
        bytes_told(alloc, line.as_slice())
    }
}

#[test]
fn a_line_is_utf8(rt: HostRuntime) -> Result<(), Fail> {
    let cases: [Case; 2] = [("# ", "L01"), ("bogus ", "L01")];
    let wrong = wrong_among(rt.alloc(), &Spoiled, &cases)?;
    assert_eq!(rt; wrong.as_str(), "");
    Ok(())
}

// What so many lists in one another are read as, as a catalogue.
fn nested(alloc: Global, depth: usize) -> Result<String, AllocError> {
    let mut line = String::from_str(alloc, "types ")?;
    for _ in 0..depth {
        line.push_str("[")?;
    }
    for _ in 0..depth {
        line.push_str("]")?;
    }
    bytes_told(alloc, line.as_bytes())
}

#[test]
fn nesting_has_its_codes(rt: HostRuntime) -> Result<(), Fail> {
    for (depth, wanted) in [(64, "types"), (65, "L07 []"), (127, "L07 []"), (128, "L06")] {
        let told = match nested(rt.alloc(), depth) {
            Ok(told) => told,
            Err(_) => nested(rt.alloc(), depth)?,
        };
        assert_eq!(rt; told.as_str(), wanted, "{depth}");
    }
    Ok(())
}
