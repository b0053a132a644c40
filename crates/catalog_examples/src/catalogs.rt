//! What no clause says: catalogues from outside, in single quotes; each fault with its path, and beside
//! the next one; the limits. Want of memory is told as such, and asked once more.
ghost use Rattle.type_catalog.specs.Changes.{ChangeOf};

use crate::cases::{Asked, Case, all_told, value_of};
use heat_plan::Properties;
use heat_value::{Seq, Text};
use hot_catalog::{Catalog, CatalogFault};
use std::alloc::{AllocError, Global};
use type_catalog::{Change, Effect, Judge, Registry, box_kind, change_of};

// A fault's code and path.
fn words_of(alloc: Global, fault: &CatalogFault) -> Result<String, AllocError> {
    match (fault.code(), fault.path()) {
        (Some(code), Some(path)) => {
            let path = path.text(alloc)?;
            format!(in alloc; "{} {}", code, path.as_str())?.replace(alloc, "\"", "'")
        }
        _ => Err(AllocError),
    }
}

// What a text in single quotes is read as into the catalogue, in words.
fn told(alloc: Global, catalog: &mut Catalog, text: &str) -> Result<String, AllocError> {
    let value = value_of(alloc, text)?;
    match catalog.read(alloc, &value) {
        Ok(()) => String::from_str(alloc, "taken"),
        Err(fault) => words_of(alloc, &fault),
    }
}

// The catalogue of a program that registers the judge of the shipped kind.
fn shipped_catalog(alloc: Global) -> Result<Catalog, AllocError> {
    let kind = box_kind(alloc)?;
    let softs = kind.softs()?;
    let change: Change = Box::new(
        alloc,
        move |old: &Properties, new: &Properties| -> Effect
            ensures { ∥ ChangeOf softs old.now new.now result ∥₁ }
        { change_of(softs.as_slice(), old, new) },
    )?;
    catalog_of(alloc, Judge::new(kind, change))
}

// The catalogue of one judge.
fn catalog_of(alloc: Global, judge: Judge) -> Result<Catalog, AllocError> {
    let mut judges = Seq::new(alloc);
    judges.push(judge)?;
    match Registry::new(judges, Seq::new(alloc)) {
        Some(registry) => Catalog::new(alloc, &registry),
        None => Err(AllocError),
    }
}

// What is asked: what a text is read as into a catalogue of the shipped kinds alone, and one with so many names
// between an opening and a close, each with a part behind it; how many attributes K has after texts were read in
// turn.
#[derive(Clone, Copy)]
enum Of {
    Text(&'static str),
    Many(&'static str, &'static str, &'static str, u32),
    InTurn(&'static [&'static str]),
}

impl Asked for Of {
    fn told(self, alloc: Global) -> Result<String, AllocError> {
        match self {
            Of::Text(text) => told_alone(alloc, text),
            Of::Many(open, part, close, count) => many(alloc, open, part, close, count),
            Of::InTurn(texts) => attributes_after(alloc, texts),
        }
    }
}

fn told_alone(alloc: Global, text: &str) -> Result<String, AllocError> {
    told(alloc, &mut shipped_catalog(alloc)?, text)
}

const PATHS: &[Case<Of>] = &[
    (Of::Text("[]"), "L09 []"),
    (Of::Text("null"), "L09 []"),
    (Of::Text("{}"), "taken"),
    (Of::Text("{'K':1}"), "L09 ['K']"),
    (Of::Text("{'K k':1}"), "L09 ['K k']"),
    (Of::Text("{'':{}}"), "L09 ['']"),
    (Of::Text("{'A':{'more':1},'K':null}"), "L09 ['K']"),
    (
        Of::Text("{'K':{'attributes':1,'properties':1}}"),
        "L09 ['K','attributes']",
    ),
    (
        Of::Text("{'K':{'attributes':['a',1]}}"),
        "L09 ['K','attributes']",
    ),
    (Of::Text("{'K':{'attributes':{'a':1,'b':null}}}"), "taken"),
    (
        Of::Text("{'K':{'properties':null}}"),
        "L09 ['K','properties']",
    ),
    (
        Of::Text("{'K':{'properties':{'p':1}}}"),
        "L09 ['K','properties','p']",
    ),
    (
        Of::Text("{'K':{'properties':{'p':{'required':1,'update_allowed':1}}}}"),
        "L09 ['K','properties','p','required']",
    ),
    (
        Of::Text("{'K':{'properties':{'p':{'required':true,'update_allowed':null}}}}"),
        "L09 ['K','properties','p','update_allowed']",
    ),
    (Of::Text("{'Test::Box':{}}"), "L09 ['Test::Box']"),
    (
        Of::Text("{'Test::Box':{'attributes':1}}"),
        "L09 ['Test::Box','attributes']",
    ),
    (Of::Text("{'Test::Box':{},'A b':{}}"), "L09 ['A b']"),
    (Of::Text("{'Test::Box':{},'U':1}"), "L09 ['Test::Box']"),
    (Of::Text("{'K k':{'attributes':1},'L':1}"), "L09 ['K k']"),
    (
        Of::Text("{'A-_.:1':{},'Z':{'attributes':['b','a','b']}}"),
        "taken",
    ),
];

#[test]
fn catalogues_have_their_paths(rt: HostRuntime) -> Result<(), AllocError> {
    all_told(&rt, PATHS)
}

fn many(
    alloc: Global,
    open: &str,
    part: &str,
    close: &str,
    count: u32,
) -> Result<String, AllocError> {
    let mut text = String::from_str(alloc, open)?;
    for i in 0..count {
        add(alloc, &mut text, i, part)?;
    }
    text.push_str(close)?;
    told_alone(alloc, text.as_str())
}

// Adds a name and its part.
fn add(alloc: Global, text: &mut String, i: u32, part: &str) -> Result<(), AllocError> {
    let comma = if i == 0 { "" } else { "," };
    text.push_str(format!(in alloc; "{}'k{}'{}", comma, i, part)?.as_str())
}

// The kind of the registry counts among the 256.
const LIMITS: &[Case<Of>] = &[
    (Of::Many("{'K':{'attributes':[", "", "]}}", 64), "taken"),
    (
        Of::Many("{'K':{'attributes':[", "", "]}}", 65),
        "L09 ['K','attributes']",
    ),
    (
        Of::Many("{'K':{'attributes':['k0',", "", "]}}", 64),
        "taken",
    ),
    (Of::Many("{", ":{}", "}", 255), "taken"),
    (Of::Many("{", ":{}", "}", 256), "L09 []"),
];

#[test]
fn limits_are_exact(rt: HostRuntime) -> Result<(), AllocError> {
    all_told(&rt, LIMITS)
}

// Each text once more where memory was wanted.
fn attributes_after(alloc: Global, texts: &[&str]) -> Result<String, AllocError> {
    let mut catalog = shipped_catalog(alloc)?;
    for text in texts {
        read(alloc, &mut catalog, text)?;
    }
    count_of(alloc, &catalog, "K")
}

fn read(alloc: Global, catalog: &mut Catalog, text: &str) -> Result<(), AllocError> {
    if told(alloc, catalog, text).is_err() {
        told(alloc, catalog, text)?;
    }
    Ok(())
}

// How many attributes the kind of this name has, where it stands.
fn count_of(alloc: Global, catalog: &Catalog, name: &str) -> Result<String, AllocError> {
    let name = Text::from_str(alloc, name)?;
    match catalog.kind(&name) {
        Some(kind) => format!(in alloc; "{}", kind.attrs.len()),
        None => String::from_str(alloc, "no kind"),
    }
}

const FIRST: &str = "{'K':{'attributes':['a']},'L':{}}";

const LATER: &str = "{'K':{'attributes':['a','b']}}";

const WRONG: &str = "{'K':{'attributes':['a','b','c']},'L':1}";

const IN_TURN: &[Case<Of>] = &[
    (Of::InTurn(&[FIRST, LATER]), "2"),
    (Of::InTurn(&[FIRST, WRONG]), "1"),
    (Of::InTurn(&[]), "no kind"),
];

#[test]
fn a_later_kind_replaces(rt: HostRuntime) -> Result<(), AllocError> {
    all_told(&rt, IN_TURN)
}
