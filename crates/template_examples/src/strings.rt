//! Texts from outside, a table for each function of texts: worked examples, published digests, and both sides
//! of the limit. What is given has two fields, parted by a bar.
use crate::cases::{Case, Teller, all_told};
use heat_value::{Text, Value, ValueFault};
use hot_strings::{
    KeyIndex, StringFault, are_distinct, digest, is_digest_name, join, replace, replace_within,
    split,
};
use std::alloc::{AllocError, Global};

// A fault's code.
fn code_of(alloc: Global, fault: &StringFault) -> Result<String, AllocError> {
    match fault.code() {
        Some(code) => String::from_str(alloc, code),
        None => Err(AllocError),
    }
}

// The text of the answer, or the fault's code.
fn words_of(alloc: Global, answer: Result<Text, StringFault>) -> Result<String, AllocError> {
    match answer {
        Ok(text) => String::from_str(alloc, text.as_str()),
        Err(fault) => code_of(alloc, &fault),
    }
}

// The two fields of what is given.
fn fields(given: &str) -> (&str, &str) {
    given.split_once("|").unwrap_or((given, ""))
}

// Keys with their values, as in `a=1 ab=2`.
fn params_of(alloc: Global, words: &str) -> Result<Vec<(Text, Text)>, AllocError> {
    let mut params = Vec::new(alloc);
    for word in words.split_whitespace() {
        if let Some((key, value)) = word.split_once("=") {
            params.push((Text::from_str(alloc, key)?, Text::from_str(alloc, value)?))?;
        }
    }
    Ok(params)
}

// What a template becomes, `strict` where each key has to stand in it.
fn replacement(alloc: Global, given: &str, strict: bool) -> Result<String, AllocError> {
    let (template, words) = fields(given);
    let template = Text::from_str(alloc, template)?;
    let params = params_of(alloc, words)?;
    if !are_distinct(params.as_slice()) {
        return String::from_str(alloc, "a key stands twice");
    }
    words_of(alloc, replace(alloc, &template, params.as_slice(), strict))
}

// A template and its keys with their values: what it becomes.
struct Replaced;

impl Teller for Replaced {
    fn told(&self, alloc: Global, given: &str) -> Result<String, AllocError> {
        replacement(alloc, given, false)
    }
}

// A template, and forty keys with their values.
const FORTY: &str = "a0a1a2a22a3 f2e9 éaéb →k|\
  a0=A b0=B c0=C d0=D e0=E f0=F g0=G h0=H i0=I j0=J a1=K b1=L c1=M d1=N e1=O f1=P g1=Q h1=R \
  i1=S j1=T a2=U b2=V c2=W d2=X e2=Y f2=Z a=1 b=2 c=3 d=4 e=5 f=6 g=7 h=8 i=9 é=0 éa=x a22=y →=z 0=!";

const REPLACED: &[Case] = &[
    ("a-ab-b|a=1 ab=2 b=a", "1-2-a"),
    ("abc|ab=X bc=Y", "Xc"),
    ("aaa|a=1 aa=2", "21"),
    ("aab|aa=1 ab=2 b=3", "13"),
    ("ab|a=b b=c", "bc"),
    ("né → ü|é=e →=->", "ne -> ü"),
    ("plain|", "plain"),
    ("|a=1", ""),
    ("x|=1", "F03"),
    // many keys, found by their first byte
    (FORTY, "AKUy13 Z59 x02 zk"),
];

#[test]
fn replaces(rt: HostRuntime) -> Result<(), AllocError> {
    all_told(&rt, &Replaced, REPLACED)
}

// The same where each key has to stand in the template.
struct ReplacedStrictly;

impl Teller for ReplacedStrictly {
    fn told(&self, alloc: Global, given: &str) -> Result<String, AllocError> {
        replacement(alloc, given, true)
    }
}

const REPLACED_STRICTLY: &[Case] = &[
    ("a|z=1", "F04"),
    ("ab|ab=1 b=2", "1"),
    ("abc|ab=X bc=Y", "Xc"),
    ("ab|a=z z=1", "F04"),
    ("x|=1 z=2", "F03"),
    ("a|", "a"),
];

#[test]
fn replaces_strictly(rt: HostRuntime) -> Result<(), AllocError> {
    all_told(&rt, &ReplacedStrictly, REPLACED_STRICTLY)
}

// The same with a limit of its own, in bytes of JSON.
#[derive(Clone, Copy)]
struct ReplacedWithin(usize);

impl Teller for ReplacedWithin {
    fn told(&self, alloc: Global, given: &str) -> Result<String, AllocError> {
        let (template, words) = fields(given);
        let template = Text::from_str(alloc, template)?;
        let params = params_of(alloc, words)?;
        let params = params.as_slice();
        if self.0 < 2 || !are_distinct(params) {
            return String::from_str(alloc, "off its condition");
        }
        let index = KeyIndex::new(alloc, params)?;
        words_of(
            alloc,
            replace_within(alloc, &template, params, &index, self.0),
        )
    }
}

#[test]
fn replaces_up_to_its_own_limit(rt: HostRuntime) -> Result<(), AllocError> {
    all_told(&rt, &ReplacedWithin(6), &[("a-b|b=cd", "a-cd")])?;
    all_told(
        &rt,
        &ReplacedWithin(5),
        &[("a-b|b=cd", "F06"), ("a-b|=cd", "F03")],
    )
}

// A delimiter and a text with a space between, and an index or nothing: the parts, or one of them.
struct Split;

impl Teller for Split {
    fn told(&self, alloc: Global, given: &str) -> Result<String, AllocError> {
        let (both, index) = fields(given);
        let (delimiter, text) = both.split_once(" ").unwrap_or((both, ""));
        let delimiter = Text::from_str(alloc, delimiter)?;
        let text = Text::from_str(alloc, text)?;
        parts_of(alloc, &delimiter, &text, index)
    }
}

// An index; none where it is no value.
fn index_of(alloc: Global, index: &str) -> Result<Option<Value>, AllocError> {
    match Value::read(alloc, index.as_bytes()) {
        Ok(index) => Ok(Some(index)),
        Err(ValueFault::Memory) => Err(AllocError),
        Err(_) => Ok(None),
    }
}

// The part of this index, or all of them where there is none.
fn parts_of(
    alloc: Global,
    delimiter: &Text,
    text: &Text,
    index: &str,
) -> Result<String, AllocError> {
    let index = index_of(alloc, index)?;
    match split(alloc, delimiter, text, index.as_ref()) {
        Ok(value) => String::from_str(alloc, value.text(alloc)?.as_str()),
        Err(fault) => code_of(alloc, &fault),
    }
}

const SPLIT: &[Case] = &[
    (", a,,b|", "[\"a\",\"\",\"b\"]"),
    ("aa aaa|", "[\"\",\"a\"]"),
    ("→ é→ü|", "[\"é\",\"ü\"]"),
    (", |", "[\"\"]"),
    (", a,b|0", "\"a\""),
    (", a,b|1", "\"b\""),
    (", a,b|2", "F02"),
    (", a,b|-1", "F02"),
    (", a,b|null", "F02"),
    (" a,b|\"0\"", "F02"),
    (" a,b|7", "F03"),
    (" a,b|", "F03"),
];

#[test]
fn splits(rt: HostRuntime) -> Result<(), AllocError> {
    all_told(&rt, &Split, SPLIT)
}

// A delimiter, and items parted by slashes.
struct Joined;

impl Teller for Joined {
    fn told(&self, alloc: Global, given: &str) -> Result<String, AllocError> {
        let (delimiter, items) = fields(given);
        let delimiter = Text::from_str(alloc, delimiter)?;
        let mut texts = Vec::new(alloc);
        for item in items.split('/') {
            texts.push(Text::from_str(alloc, item)?)?;
        }
        words_of(alloc, join(alloc, &delimiter, texts.as_slice()))
    }
}

const JOINED: &[Case] = &[
    (", |x/1/true/", "x, 1, true, "),
    ("|a/b", "ab"),
    ("→|é", "é"),
];

#[test]
fn joins(rt: HostRuntime) -> Result<(), AllocError> {
    all_told(&rt, &Joined, JOINED)
}

// A digest's name, and a text.
struct Digested;

impl Teller for Digested {
    fn told(&self, alloc: Global, given: &str) -> Result<String, AllocError> {
        let (name, text) = fields(given);
        let name = Text::from_str(alloc, name)?;
        let text = Text::from_str(alloc, text)?;
        if !is_digest_name(&name) {
            return String::from_str(alloc, "no digest");
        }
        words_of(alloc, digest(alloc, &name, &text))
    }
}

const DIGESTS: &[Case] = &[
    ("md5|", "d41d8cd98f00b204e9800998ecf8427e"),
    ("md5|abc", "900150983cd24fb0d6963f7d28e17f72"),
    ("sha1|", "da39a3ee5e6b4b0d3255bfef95601890afd80709"),
    ("sha1|abc", "a9993e364706816aba3e25717850c26c9cd0d89d"),
    (
        "sha224|",
        "d14a028c2a3a2bc9476102bb288234c415a2b01f828ea62ac5b3e42f",
    ),
    (
        "sha224|abc",
        "23097d223405d8228642a477bda255b32aadbce4bda0b3f7e36c9da7",
    ),
    (
        "sha256|",
        "e3b0c44298fc1c149afbf4c8996fb92427ae41e4649b934ca495991b7852b855",
    ),
    (
        "sha256|abc",
        "ba7816bf8f01cfea414140de5dae2223b00361a396177a9cb410ff61f20015ad",
    ),
    (
        "sha384|",
        "38b060a751ac96384cd9327eb1b1e36a21fdb71114be07434c0cc7bf63f6e1da274edebfe76f65fbd51ad2f14898b95b",
    ),
    (
        "sha384|abc",
        "cb00753f45a35e8bb5a03d699ac65007272c32ab0eded1631a8b605a43ff5bed8086072ba1e7cc2358baeca134c825a7",
    ),
    (
        "sha512|",
        "cf83e1357eefb8bdf1542850d66d8007d620e4050b5715dc83f4a921d36ce9ce\
        47d0d13c5d85f2b0ff8318d2877eec2f63b931bd47417a81a538327af927da3e",
    ),
    (
        "sha512|abc",
        "ddaf35a193617abacc417349ae20413112e6fa4e89a97ea20a9eeee64b55d39a\
        2192992a274fc1a836ba3c23a3feebbd454d4423643ce80e2a9ac94fa54ca49f",
    ),
    ("sha3|abc", "no digest"),
];

#[test]
fn digests(rt: HostRuntime) -> Result<(), AllocError> {
    all_told(&rt, &Digested, DIGESTS)
}
