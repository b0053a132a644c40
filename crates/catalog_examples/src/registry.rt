//! What no clause says: that the shipped registry can be made with closures of a program, and that it answers;
//! where memory is wanted, it is asked once more.
ghost use Rattle.std.specs.Prelude.{◌≡◌};
ghost use Rattle.type_catalog.specs.Changes.{ChangeOf};
ghost use Rattle.type_catalog.specs.Names.{is_listed};
ghost use Rattle.type_catalog.specs.Shipped.{flavor_test as the_flavor_test};

use crate::cases::{Asked, Case, all_told, value_of};
use heat_plan::Properties;
use heat_value::{Text, TryCopy, Value};
use sample_plans::boxes;
use std::alloc::{AllocError, Global};
use type_catalog::{
    Ask, Change, Effect, Registry, box_kind, change_of, is_flavor, shipped_registry,
};

// What is asked: the test of a name, of a text; the judge of a kind, of a change from the first properties to
// the second; the registry, of such a change of a box for which these properties change in place.
#[derive(Clone, Copy)]
enum Of {
    Test(&'static str, &'static str),
    Change(&'static str, &'static str, &'static str),
    Box(&'static [&'static str], &'static str, &'static str),
}

impl Asked for Of {
    fn told(self, alloc: Global) -> Result<String, AllocError> {
        String::from_str(alloc, answer(alloc, self)?)
    }
}

// What the shipped registry answers.
fn answer(alloc: Global, asked: Of) -> Result<&'static str, AllocError> {
    let softs = box_kind(alloc)?.softs()?;
    let change: Change = Box::new(
        alloc,
        move |old: &Properties, new: &Properties| -> Effect
            ensures { ∥ ChangeOf softs old.now new.now result ∥₁ }
        { change_of(softs.as_slice(), old, new) },
    )?;
    let ask: Ask = Box::new(
        alloc,
        |text: &Text| -> bool
            ensures { result ≡ is_listed the_flavor_test.allowed text.now }
        { is_flavor(text) },
    )?;
    let registry = shipped_registry(alloc, change, ask)?;
    answered(alloc, &registry, asked)
}

fn answered(alloc: Global, registry: &Registry, asked: Of) -> Result<&'static str, AllocError> {
    match asked {
        Of::Test(name, text) => told(alloc, registry, name, text),
        Of::Change(kind, old, new) => judged(alloc, registry, kind, old, new),
        Of::Box(softs, old, new) => changed(alloc, registry, softs, old, new),
    }
}

fn told(
    alloc: Global,
    registry: &Registry,
    name: &str,
    text: &str,
) -> Result<&'static str, AllocError> {
    let name = Text::from_str(alloc, name)?;
    let text = Text::from_str(alloc, text)?;
    Ok(match registry.custom(&name) {
        Some(custom) => if custom.ask(&text) { "true" } else { "false" },
        None => "no such test",
    })
}

// Properties before a change and behind it.
struct Pair {
    old: Properties,
    new: Properties,
}

impl Drop for Pair {
    fn drop(self) {
        let Pair { old: _, new: _ } = self;
    }
}

fn pair_of(alloc: Global, old: &str, new: &str) -> Result<Pair, AllocError> {
    let old = properties(alloc, old)?;
    Ok(Pair {
        old,
        new: properties(alloc, new)?,
    })
}

fn judged(
    alloc: Global,
    registry: &Registry,
    kind: &str,
    old: &str,
    new: &str,
) -> Result<&'static str, AllocError> {
    let pair = pair_of(alloc, old, new)?;
    match registry.judge(&Text::from_str(alloc, kind)?) {
        Some(judge) => Ok(word(judge.change(&pair.old, &pair.new))),
        None => Ok("no such judge"),
    }
}

fn word(effect: Effect) -> &'static str {
    match effect {
        Effect::Same => "same",
        Effect::InPlace => "in place",
        Effect::Replace => "replace",
    }
}

fn changed(
    alloc: Global,
    registry: &Registry,
    softs: &[&str],
    old: &str,
    new: &str,
) -> Result<&'static str, AllocError> {
    let pair = pair_of(alloc, old, new)?;
    let kind = boxes(alloc, &[], softs)?;
    Ok(word(registry.change(&kind, &pair.old, &pair.new)))
}

// Properties of a text in single quotes; it fails where it is no map.
fn properties(alloc: Global, text: &str) -> Result<Properties, AllocError> {
    match &value_of(alloc, text)? {
        Value::Fields(props) => Properties::from_props(props.copy()?).ok_or(AllocError),
        _ => Err(AllocError),
    }
}

const ASKED: &[Case<Of>] = &[
    (Of::Test("nova.flavor", "m1.tiny"), "true"),
    (Of::Test("nova.flavor", "m1.small"), "true"),
    (Of::Test("nova.flavor", "m1.medium"), "true"),
    (Of::Test("nova.flavor", "m1.large"), "true"),
    (Of::Test("nova.flavor", "m1.huge"), "false"),
    (Of::Test("nova.flavor", ""), "false"),
    (Of::Test("nope", "m1.tiny"), "no such test"),
    (Of::Change("Test::Box", "{'size':1}", "{'size':1}"), "same"),
    (
        Of::Change("Test::Box", "{'size':1}", "{'size':2}"),
        "in place",
    ),
    (
        Of::Change("Test::Box", "{'size':1}", "{'link':1}"),
        "in place",
    ),
    (
        Of::Change("Test::Box", "{'size':1}", "{'zone':1}"),
        "replace",
    ),
    (
        Of::Change("Test::Box", "{'zone':1}", "{'zone':2}"),
        "replace",
    ),
    (Of::Change("Test::Box", "{}", "{'colour':1}"), "replace"),
    (Of::Change("Test::Bag", "{}", "{}"), "no such judge"),
    (Of::Box(&["link", "size"], "{}", "{'size':1}"), "in place"),
    (Of::Box(&["link"], "{}", "{'size':1}"), "replace"),
    (Of::Box(&["zone"], "{}", "{'zone':1}"), "in place"),
    (Of::Box(&[], "{'size':1}", "{'size':1}"), "same"),
];

#[test]
fn the_shipped_registry_answers(rt: HostRuntime) -> Result<(), AllocError> {
    all_told(&rt, ASKED)
}
