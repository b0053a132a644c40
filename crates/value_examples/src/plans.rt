//! What no clause says: names, tokens, numbers and parts of plans from outside, and that each call succeeds
//! with ample memory.
use crate::cases::{Asked, Case, all_told, is_copied, put};
use heat_plan::{
    Answered, Condition, Expression, Facts, File, Known, KnownFacts, Output, Parameters, Policy,
    Properties, Refusal, Request, ResName, RowNo, StackName, Token, is_rising,
};
use heat_value::{Items, Props, Seq, Text, Value};
use sample_plans::{bare_item, no_plan};
use std::alloc::{AllocError, Global};

// What is asked: what may have a name of these bytes, and one of so many letters, with this one behind the
// first; whether bytes are a token; what fits; whether names rise; a refusal's code; whether a part is copied.
#[derive(Clone, Copy)]
enum Of {
    Name(&'static [u8]),
    LongName(usize, char),
    Token(&'static [u8]),
    Number(u64),
    Nested(NestedIn, usize),
    Needs(&'static [&'static str]),
    Code(Refusal),
    Copy(Part),
}

// What holds lists in lists, under one key.
#[derive(Clone, Copy)]
enum NestedIn {
    Properties,
    Parameters,
}

#[derive(Clone, Copy)]
enum Part {
    Item,
    Facts,
    Answer,
    Request,
    Condition,
    File,
    Output,
    Plan,
}

impl Asked for Of {
    fn told(self, alloc: Global) -> Result<Text, AllocError> {
        Text::from_str(alloc, word(alloc, self)?)
    }
}

fn word(alloc: Global, of: Of) -> Result<&'static str, AllocError> {
    match of {
        Of::Name(bytes) => named(alloc, bytes),
        Of::LongName(letters, second) => long_named(alloc, letters, second),
        Of::Token(bytes) => read_token(alloc, bytes),
        Of::Number(n) => Ok(if RowNo::new(n).is_some() {
            "fits"
        } else {
            "none"
        }),
        Of::Nested(held, lists) => nested(alloc, held, lists),
        Of::Needs(names) => rising(alloc, names),
        Of::Code(refusal) => Ok(refusal.code().unwrap_or("none")),
        Of::Copy(part) => copied(alloc, part),
    }
}

fn named(alloc: Global, bytes: &[u8]) -> Result<&'static str, AllocError> {
    let stack = StackName::read(alloc, bytes)?.is_some();
    let resource = ResName::read(alloc, bytes)?.is_some();
    Ok(match (stack, resource) {
        (true, true) => "stack, resource",
        (true, false) => "stack",
        (false, true) => "resource",
        (false, false) => "none",
    })
}

fn long_named(alloc: Global, letters: usize, second: char) -> Result<&'static str, AllocError> {
    let mut text = String::new(alloc);
    for i in 0..letters {
        text.push(if i == 1 { second } else { 'a' })?;
    }
    named(alloc, text.as_bytes())
}

const NAMES: &[Case<Of>] = &[
    ("a letter", Of::Name(b"a"), "stack, resource"),
    ("no bytes", Of::Name(b""), "none"),
    (
        "each kind of character",
        Of::Name(b"Az09_.-"),
        "stack, resource",
    ),
    ("a digit first", Of::Name(b"1a"), "resource"),
    ("a hyphen first", Of::Name(b"-"), "resource"),
    ("a space", Of::Name(b"a b"), "none"),
    ("a slash", Of::Name(b"a/b"), "none"),
    ("a letter outside ASCII", Of::Name(b"\xC3\xA9"), "none"),
    ("255 letters", Of::LongName(255, 'a'), "stack, resource"),
    ("256 letters", Of::LongName(256, 'a'), "none"),
    (
        "255 letters, one of two bytes",
        Of::LongName(255, '\u{e9}'),
        "none",
    ),
];

#[test]
fn names_are_read(rt: HostRuntime) -> Result<(), AllocError> {
    all_told(&rt, NAMES)
}

fn read_token(alloc: Global, bytes: &[u8]) -> Result<&'static str, AllocError> {
    match Token::read(alloc, bytes)? {
        Some(token) => written(alloc, &token, bytes),
        None => Ok("none"),
    }
}

// Whether a token's text is these bytes, and its copy the token.
fn written(alloc: Global, token: &Token, bytes: &[u8]) -> Result<&'static str, AllocError> {
    let same = is_copied(token)?;
    let text = token.text(alloc)?;
    Ok(if same && text.as_str().as_bytes() == bytes {
        "itself"
    } else {
        "another"
    })
}

const TOKENS: &[Case<Of>] = &[
    ("the least number", Of::Token(b"s/a/1"), "itself"),
    ("a zero in front", Of::Token(b"s/a/01"), "none"),
    ("two parts", Of::Token(b"s/a"), "none"),
    ("a number of zero", Of::Token(b"s/a/0"), "none"),
    ("a sign", Of::Token(b"s/a/+1"), "none"),
    (
        "the greatest number",
        Of::Token(b"s/a/4611686018427387903"),
        "itself",
    ),
    ("one more", Of::Token(b"s/a/4611686018427387904"), "none"),
    (
        "twenty digits",
        Of::Token(b"s/a/99999999999999999999"),
        "none",
    ),
    ("a slash at the end", Of::Token(b"s/a/1/"), "none"),
    ("no name of a stack", Of::Token(b"1/a/1"), "none"),
    ("no bytes", Of::Token(b""), "none"),
];

#[test]
fn tokens_are_read_and_written(rt: HostRuntime) -> Result<(), AllocError> {
    all_told(&rt, TOKENS)
}

fn nested(alloc: Global, within: NestedIn, lists: usize) -> Result<&'static str, AllocError> {
    let mut props = Props::new(alloc);
    put(alloc, &mut props, "p", lists_of(alloc, lists)?)?;
    let fits = match within {
        NestedIn::Properties => Properties::from_props(props).is_some(),
        NestedIn::Parameters => Parameters::from_props(props).is_some(),
    };
    Ok(if fits { "fits" } else { "none" })
}

// So many lists, one in the other.
fn lists_of(alloc: Global, lists: usize) -> Result<Value, AllocError> {
    let mut value = Value::Null;
    for _ in 0..lists {
        let mut items = Items::new(alloc);
        items.push(value)?;
        value = Value::Items(items);
    }
    Ok(value)
}

fn rising(alloc: Global, texts: &[&str]) -> Result<&'static str, AllocError> {
    let mut names = Seq::new(alloc);
    for text in texts {
        names.push(name_of(alloc, text)?)?;
    }
    Ok(if is_rising(names.as_slice()) {
        "rise"
    } else {
        "don't"
    })
}

fn name_of(alloc: Global, text: &str) -> Result<ResName, AllocError> {
    ResName::read(alloc, text.as_bytes())?.ok_or(AllocError)
}

const RANGES: &[Case<Of>] = &[
    ("no number", Of::Number(0), "none"),
    ("the least number", Of::Number(1), "fits"),
    ("the greatest number", Of::Number((1 << 62) - 1), "fits"),
    ("one more", Of::Number(1 << 62), "none"),
    (
        "properties 64 deep",
        Of::Nested(NestedIn::Properties, 63),
        "fits",
    ),
    (
        "properties 65 deep",
        Of::Nested(NestedIn::Properties, 64),
        "none",
    ),
    (
        "a parameter 64 deep",
        Of::Nested(NestedIn::Parameters, 64),
        "fits",
    ),
    (
        "a parameter 65 deep",
        Of::Nested(NestedIn::Parameters, 65),
        "none",
    ),
    ("no needs", Of::Needs(&[]), "rise"),
    ("two needs in order", Of::Needs(&["b", "c"]), "rise"),
    ("one need twice", Of::Needs(&["b", "b"]), "don't"),
    ("two needs out of order", Of::Needs(&["c", "b"]), "don't"),
    (
        "a refusal with a code",
        Of::Code(Refusal::TooManyEngines),
        "E17",
    ),
    ("a refusal without", Of::Code(Refusal::Memory), "none"),
];

#[test]
fn numbers_nesting_and_needs_have_their_limits(rt: HostRuntime) -> Result<(), AllocError> {
    all_told(&rt, RANGES)
}

fn copied(alloc: Global, part: Part) -> Result<&'static str, AllocError> {
    let same = match part {
        Part::Item => is_an_item_copied(alloc),
        Part::Facts => are_facts_copied(alloc),
        Part::Answer => is_an_answer_copied(alloc),
        Part::Request => is_copied(&Request::Update(Properties::new(alloc))),
        Part::Condition => is_a_condition_copied(alloc),
        Part::File => is_a_file_copied(alloc),
        Part::Output => is_an_output_copied(alloc),
        Part::Plan => is_copied(&no_plan(alloc)),
    };
    Ok(if same? { "itself" } else { "another" })
}

fn is_an_item_copied(alloc: Global) -> Result<bool, AllocError> {
    let mut item = bare_item(alloc, name_of(alloc, "a")?)?;
    item.policy = Policy::Retain;
    is_copied(&item)
}

// The facts of a resource without attributes.
fn facts_of(alloc: Global) -> Result<Facts, AllocError> {
    Ok(Facts {
        id: Text::from_str(alloc, "sim-1")?,
        attrs: Properties::new(alloc),
    })
}

fn known_of(alloc: Global) -> Result<KnownFacts, AllocError> {
    let name = name_of(alloc, "a")?;
    Ok(KnownFacts {
        name,
        facts: facts_of(alloc)?,
    })
}

fn are_facts_copied(alloc: Global) -> Result<bool, AllocError> {
    let mut facts = Seq::new(alloc);
    facts.push(known_of(alloc)?)?;
    is_copied(&Known { facts })
}

fn is_an_answer_copied(alloc: Global) -> Result<bool, AllocError> {
    is_copied(&Answered::Ready(facts_of(alloc)?))
}

fn is_a_condition_copied(alloc: Global) -> Result<bool, AllocError> {
    let name = Text::from_str(alloc, "c")?;
    is_copied(&Condition { name, value: true })
}

fn is_a_file_copied(alloc: Global) -> Result<bool, AllocError> {
    let name = Text::from_str(alloc, "f")?;
    let content = Text::from_str(alloc, "text")?;
    is_copied(&File { name, content })
}

fn is_an_output_copied(alloc: Global) -> Result<bool, AllocError> {
    let name = Text::from_str(alloc, "o")?;
    match Expression::from_value(Value::Null) {
        Some(value) => is_copied(&Output { name, value }),
        None => Ok(false),
    }
}

const COPIES: &[Case<Of>] = &[
    ("an item", Of::Copy(Part::Item), "itself"),
    ("what is known", Of::Copy(Part::Facts), "itself"),
    ("an answer", Of::Copy(Part::Answer), "itself"),
    ("a request", Of::Copy(Part::Request), "itself"),
    ("a condition", Of::Copy(Part::Condition), "itself"),
    ("a file", Of::Copy(Part::File), "itself"),
    ("an output", Of::Copy(Part::Output), "itself"),
    ("a plan", Of::Copy(Part::Plan), "itself"),
];

#[test]
fn parts_of_plans_are_copied(rt: HostRuntime) -> Result<(), AllocError> {
    all_told(&rt, COPIES)
}
