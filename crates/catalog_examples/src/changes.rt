//! What no clause says: that each answer comes; where memory is wanted, it is asked once more.
use heat_plan::Properties;
use heat_value::{Text, TryCopy, Value, ValueFault};
use std::alloc::{AllocError, Global};
use std::test::Fail;
use type_catalog::{Effect, change_of};

// Properties of a text; none where it is no map.
fn properties(alloc: Global, text: &[u8]) -> Result<Option<Properties>, AllocError> {
    match &Value::read(alloc, text) {
        Ok(Value::Fields(props)) => Ok(Properties::from_props(props.copy()?)),
        Ok(_) => Ok(None),
        Err(ValueFault::Memory) => Err(AllocError),
        Err(_) => Ok(None),
    }
}

// What the change from the first to the second asks for, where `s` and `t` change in place.
fn effect(alloc: Global, old: &[u8], new: &[u8]) -> Result<Option<Effect>, AllocError> {
    let softs = [Text::from_str(alloc, "s")?, Text::from_str(alloc, "t")?];
    let (Some(old), Some(new)) = (properties(alloc, old)?, properties(alloc, new)?) else {
        return Ok(None);
    };
    Ok(Some(change_of(&softs, &old, &new)))
}

#[test]
fn changes_are_told(rt: HostRuntime) -> Result<(), Fail> {
    let cases: [(&[u8], &[u8], Effect); 7] = [
        (b"{\"h\":1}", b"{\"h\":1}", Effect::Same),
        (b"{\"h\":1}", b"{\"h\":2}", Effect::Replace),
        (b"{\"h\":1}", b"{\"h\":1,\"s\":1}", Effect::InPlace),
        (
            b"{\"h\":1,\"s\":1}",
            b"{\"h\":1,\"s\":2,\"t\":1}",
            Effect::InPlace,
        ),
        (b"{\"s\":1,\"t\":1}", b"{}", Effect::InPlace),
        (b"{\"s\":1}", b"{\"h\":1,\"s\":2}", Effect::Replace),
        (b"{}", b"{\"h\":1}", Effect::Replace),
    ];
    for (old, new, expected) in cases {
        let told = match effect(rt.alloc(), old, new) {
            Ok(told) => told,
            Err(_) => effect(rt.alloc(), old, new)?,
        };
        assert_eq!(rt; told, Some(expected));
    }
    Ok(())
}
