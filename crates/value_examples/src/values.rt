//! What no clause says: values from outside, printed texts, and that each call succeeds with ample memory.
use crate::cases::{Asked, Case, all_told, is_copied, put};
use heat_value::{
    Equals, Items, Path, Props, Seq, Step, Text, TryCopy, Value, ValueFault, text_of,
};
use std::alloc::{AllocError, Global};

// What is asked: what bytes are read as, and so many lists, one in the other, between two texts; the text that
// a value stands for; whether pairs and options are equal; what is made.
#[derive(Clone, Copy)]
enum Of {
    Reading(&'static [u8]),
    Deep(&'static str, usize, &'static str),
    Standing(&'static [u8]),
    Pairs((u32, u32), (u32, u32)),
    Options(Option<u32>, Option<u32>),
    Value,
    Path,
    ValueCopy,
    ListCopy,
    ListEdit,
}

impl Asked for Of {
    fn told(self, alloc: Global) -> Result<Text, AllocError> {
        match self {
            Of::Reading(bytes) => outcome(alloc, bytes),
            Of::Deep(front, lists, back) => deep(alloc, front, lists, back),
            Of::Standing(bytes) => standing(alloc, bytes),
            Of::Value => value_text(alloc),
            Of::Path => path_text(alloc),
            other => Text::from_str(alloc, if holds(alloc, other)? { "yes" } else { "no" }),
        }
    }
}

// Whether it is so.
fn holds(alloc: Global, of: Of) -> Result<bool, AllocError> {
    match of {
        Of::Pairs(one, other) => Ok(one.equals(&other)),
        Of::Options(one, other) => Ok(one.equals(&other)),
        Of::ValueCopy => is_copied(&made(alloc)?),
        Of::ListCopy => is_copied(&three(alloc)?),
        Of::ListEdit => is_a_list_edited(alloc),
        _ => Ok(false),
    }
}

// What reading gives, as a text.
fn outcome(alloc: Global, bytes: &[u8]) -> Result<Text, AllocError> {
    match Value::read(alloc, bytes) {
        Ok(value) => value.text(alloc),
        Err(ValueFault::NotJson) => Text::from_str(alloc, "not json"),
        Err(ValueFault::TooDeep) => Text::from_str(alloc, "too deep"),
        Err(ValueFault::BadNumber(path)) => path.text(alloc),
        Err(ValueFault::Memory) => Text::from_str(alloc, "memory"),
    }
}

const READINGS: &[Case<Of>] = &[
    ("a scalar", Of::Reading(b"null"), "null"),
    ("no bytes", Of::Reading(b""), "not json"),
    (
        "spaces round a value",
        Of::Reading(b" [ 1 , 2 ]\n"),
        "[1,2]",
    ),
    (
        "the greatest number",
        Of::Reading(b"9223372036854775807"),
        "9223372036854775807",
    ),
    ("one more", Of::Reading(b"9223372036854775808"), "[]"),
    (
        "the least number",
        Of::Reading(b"-9223372036854775808"),
        "-9223372036854775808",
    ),
    ("one less", Of::Reading(b"-9223372036854775809"), "[]"),
    ("minus zero", Of::Reading(b"-0"), "[]"),
    ("an exponent", Of::Reading(b"1e2"), "[]"),
    ("a fraction", Of::Reading(b"1.0"), "[]"),
    ("past any float", Of::Reading(b"1e999"), "not json"),
    ("a leading zero", Of::Reading(b"01"), "not json"),
    (
        "keys are sorted",
        Of::Reading(b"{\"b\":1,\"a\":2}"),
        "{\"a\":2,\"b\":1}",
    ),
    (
        "of equal keys the last, a bad one first",
        Of::Reading(b"{\"a\":1.5,\"a\":1}"),
        "{\"a\":1}",
    ),
    (
        "of equal keys the last, a bad one last",
        Of::Reading(b"{\"a\":1,\"a\":1.5}"),
        "[\"a\"]",
    ),
    (
        "an overwritten number past any float",
        Of::Reading(b"{\"a\":1e999,\"a\":1}"),
        "not json",
    ),
    (
        "the first bad number goes by keys",
        Of::Reading(b"{\"b\":1.5,\"a\":[0,2.5]}"),
        "[\"a\",1]",
    ),
    (
        "a later bad number",
        Of::Reading(b"[1,{\"k\":[0.5,0.5]},1.5]"),
        "[1,\"k\",0]",
    ),
    ("a lone surrogate", Of::Reading(b"\"\\ud800\""), "not json"),
    (
        "a pair of surrogates",
        Of::Reading(b"\"\\ud83d\\ude00\""),
        "\"\u{1f600}\"",
    ),
    ("a control character", Of::Reading(b"\"\x01\""), "not json"),
    ("no UTF-8", Of::Reading(b"\"\xFF\""), "not json"),
    (
        "a byte order mark",
        Of::Reading(b"\xEF\xBB\xBFnull"),
        "not json",
    ),
    ("two values", Of::Reading(b"1 2"), "not json"),
    ("an empty key", Of::Reading(b"{\"\":{}}"), "{\"\":{}}"),
    ("an open list", Of::Reading(b"[1"), "not json"),
    (
        "escapes of one letter",
        Of::Reading(b"\"\\\"\\\\\\/\\b\\f\\n\\r\\t\""),
        "\"\\\"\\\\/\\b\\f\\n\\r\\t\"",
    ),
    (
        "escapes of four digits",
        Of::Reading(b"\"\\u0001\\u001f\\u007f\\u00e9\""),
        "\"\\u0001\\u001f\u{7f}\u{e9}\"",
    ),
    (
        "an escape in a key",
        Of::Reading(b"{\"a\\n\":[true,false,null]}"),
        "{\"a\\n\":[true,false,null]}",
    ),
];

#[test]
fn reads_or_names_the_first_fault(rt: HostRuntime) -> Result<(), AllocError> {
    all_told(&rt, READINGS)
}

// What reading so many lists gives, one in the other, between two texts.
fn deep(alloc: Global, front: &str, lists: usize, back: &str) -> Result<Text, AllocError> {
    let mut text = String::from_str(alloc, front)?;
    for _ in 0..lists {
        text.push_str("[")?;
    }
    for _ in 0..lists {
        text.push_str("]")?;
    }
    text.push_str(back)?;
    outcome(alloc, text.as_bytes())
}

// 64 lists.
const DEEPEST: &str = "[[[[[[[[[[[[[[[[[[[[[[[[[[[[[[[[[[[[[[[[[[[[[[[[[[[[[[[[[[[[[[[[\
                       ]]]]]]]]]]]]]]]]]]]]]]]]]]]]]]]]]]]]]]]]]]]]]]]]]]]]]]]]]]]]]]]]";

const NESTED: &[Case<Of>] = &[
    ("the deepest", Of::Deep("", 64, ""), DEEPEST),
    ("one more", Of::Deep("", 65, ""), "too deep"),
    (
        "the deepest that is read",
        Of::Deep("", 127, ""),
        "too deep",
    ),
    ("one more than is read", Of::Deep("", 128, ""), "not json"),
    (
        "an overwritten member",
        Of::Deep("{\"a\":", 65, ",\"a\":1}"),
        "{\"a\":1}",
    ),
    (
        "the deepest of them",
        Of::Deep("{\"a\":", 126, ",\"a\":1}"),
        "{\"a\":1}",
    ),
    (
        "one more of them",
        Of::Deep("{\"a\":", 127, ",\"a\":1}"),
        "not json",
    ),
    (
        "two more of them",
        Of::Deep("{\"a\":", 128, ",\"a\":1}"),
        "not json",
    ),
];

#[test]
fn nests_64_deep_and_overwritten_127(rt: HostRuntime) -> Result<(), AllocError> {
    all_told(&rt, NESTED)
}

// The text that a value stands for.
fn standing(alloc: Global, bytes: &[u8]) -> Result<Text, AllocError> {
    match Value::read(alloc, bytes) {
        Ok(value) => text_of(alloc, &value),
        Err(_) => Err(AllocError),
    }
}

const TEXTS: &[Case<Of>] = &[
    ("null", Of::Standing(b"null"), ""),
    ("a text", Of::Standing(b"\"a b\""), "a b"),
    ("a number", Of::Standing(b"-12"), "-12"),
    ("a flag", Of::Standing(b"true"), "true"),
    ("a list", Of::Standing(b"[1,\"a\"]"), "[1,\"a\"]"),
    ("a map", Of::Standing(b"{\"k\":null}"), "{\"k\":null}"),
];

#[test]
fn stands_for_a_text(rt: HostRuntime) -> Result<(), AllocError> {
    all_told(&rt, TEXTS)
}

// The map of a and b, of which b stood there before.
fn two_members(alloc: Global) -> Result<Props, AllocError> {
    let mut props = Props::new(alloc);
    put(alloc, &mut props, "b", Value::Whole(1))?;
    put(alloc, &mut props, "a", Value::Null)?;
    put(alloc, &mut props, "b", Value::Flag(true))?;
    Ok(props)
}

// The list of that map.
fn made(alloc: Global) -> Result<Value, AllocError> {
    let props = two_members(alloc)?;
    let mut items = Items::new(alloc);
    items.push(Value::Fields(props))?;
    Ok(Value::Items(items))
}

fn value_text(alloc: Global) -> Result<Text, AllocError> {
    made(alloc)?.text(alloc)
}

// The list a, b, c, of which b comes last.
fn three(alloc: Global) -> Result<Seq<Text>, AllocError> {
    let mut list: Seq<Text> = Seq::with_capacity(alloc, 2)?;
    insert(&mut list, 0, "a")?;
    insert(&mut list, 1, "c")?;
    insert(&mut list, 1, "b")?;
    Ok(list)
}

// Puts a text at a place, if the list reaches it.
fn insert(list: &mut Seq<Text>, at: usize, text: &str) -> Result<(), AllocError> {
    if at <= list.len() {
        list.insert(at, Text::from_str(list.allocator(), text)?)?;
    }
    Ok(())
}

// Takes the first away, puts a text in the place of the next and the first in that of the last, and cuts
// all but one; whether the first was a, and d is left.
fn edit(list: &mut Seq<Text>, by: Text) -> bool {
    if list.len() < 3 {
        return false;
    }
    let taken = list.remove(0);
    let first = taken.as_str() == "a";
    *list.item_mut(0) = by;
    list.set(1, taken);
    list.truncate(1);
    first && list.len() == 1 && list.as_slice()[0].as_str() == "d"
}

fn is_a_list_edited(alloc: Global) -> Result<bool, AllocError> {
    let mut list = three(alloc)?;
    Ok(edit(&mut list, Text::from_str(alloc, "d")?))
}

fn key(alloc: Global, text: &str) -> Result<Step, AllocError> {
    Ok(Step::Key(Text::from_str(alloc, text)?))
}

// The number 0 in the list under a key, under resources.
fn path_of(alloc: Global) -> Result<Path, AllocError> {
    let mut path = Path::root(alloc);
    path.push(key(alloc, "a\"")?)?;
    path.push(Step::Index(0))?;
    path.under(key(alloc, "resources")?)
}

// The text of its copy.
fn path_text(alloc: Global) -> Result<Text, AllocError> {
    path_of(alloc)?.copy()?.text(alloc)
}

const MADE: &[Case<Of>] = &[
    ("a value", Of::Value, "[{\"a\":null,\"b\":true}]"),
    ("a path", Of::Path, "[\"resources\",\"a\\\"\",0]"),
    ("a value is copied", Of::ValueCopy, "yes"),
    ("a list is copied", Of::ListCopy, "yes"),
    ("a list is edited", Of::ListEdit, "yes"),
    ("equal pairs", Of::Pairs((1, 2), (1, 2)), "yes"),
    ("pairs in another order", Of::Pairs((1, 2), (2, 1)), "no"),
    ("equal options", Of::Options(Some(1), Some(1)), "yes"),
    ("one and none", Of::Options(Some(1), None), "no"),
];

#[test]
fn values_are_made_and_compared(rt: HostRuntime) -> Result<(), AllocError> {
    all_told(&rt, MADE)
}
