//! Names, numbers and rows, short. Where there is no memory the test aborts.
use core_state::Row;
use heat_plan::{
    Act, EngineNo, Facts, Policy, Properties, ResName, RowNo, StackName, Status, TravNo,
};
use heat_value::{Seq, Text, TryCopy, Value};
use sample_plans::boxes;
use std::process::Abort;

/// The stack's name, `s`.
pub(crate) fn stack(rt: &(impl Abort + AllocGlobal)) -> StackName {
    StackName::read(rt.alloc(), b"s")
        .expect(rt, "memory")
        .expect(rt, "a name")
}

/// A resource's name.
pub(crate) fn res_name(rt: &(impl Abort + AllocGlobal), text: &str) -> ResName {
    ResName::read(rt.alloc(), text.as_bytes())
        .expect(rt, "memory")
        .expect(rt, "a name")
}

/// A row's number.
pub(crate) fn row_no(rt: &impl Abort, no: u64) -> RowNo {
    RowNo::new(no).expect(rt, "a number")
}

/// A traversal's number.
pub(crate) fn trav(rt: &impl Abort, no: u64) -> TravNo {
    TravNo::new(no).expect(rt, "a number")
}

/// An engine's number.
pub(crate) fn engine(rt: &impl Abort, no: u64) -> EngineNo {
    EngineNo::new(no).expect(rt, "a number")
}

/// A text.
pub(crate) fn text(rt: &(impl Abort + AllocGlobal), text: &str) -> Text {
    Text::from_str(rt.alloc(), text).expect(rt, "memory")
}

/// A row of the stack `s` and this name.
pub(crate) fn row(
    rt: &(impl Abort + AllocGlobal),
    no: u64,
    name: &str,
    act: Act,
    status: Status,
) -> Row {
    Row {
        no: row_no(rt, no),
        stack: stack(rt),
        name: res_name(rt, name),
        kind: boxes(rt.alloc(), &[], &[]).expect(rt, "memory"),
        act,
        status,
        trav: trav(rt, 1),
        props: Properties::new(rt.alloc()),
        target: None,
        facts: None,
        requires_: Seq::new(rt.alloc()),
        replaces: None,
        replaced_by: None,
        engine: None,
        key: 0,
        policy: Policy::Delete,
    }
}

/// The same, complete, with this id and an address that is the same text.
pub(crate) fn ready(
    rt: &(impl Abort + AllocGlobal),
    no: u64,
    name: &str,
    act: Act,
    id: &str,
) -> Row {
    let mut ready = row(rt, no, name, act, Status::Complete);
    ready.facts = Some(Facts {
        id: text(rt, id),
        attrs: address(rt, id),
    });
    ready
}

// A map with an address of this text.
fn address(rt: &(impl Abort + AllocGlobal), text: &str) -> Properties {
    let attrs = format!(in rt.alloc(); "{{\"addr\":\"{text}\"}}").expect(rt, "memory");
    match &Value::read(rt.alloc(), attrs.as_bytes()).expect(rt, "JSON") {
        Value::Fields(attrs) => {
            let attrs = attrs.copy().expect(rt, "memory");
            Properties::from_props(attrs).expect(rt, "shallow")
        }
        _ => Properties::new(rt.alloc()),
    }
}
