//! What the parameters of a template are bound to, where the test `nova.flavor` is registered.
ghost use Rattle.std.specs.Prelude.{◌≡◌, ◌≤◌};
ghost use Rattle.heat_value.specs.Data.{members_depth};
ghost use Rattle.type_catalog.specs.Names.{is_listed};
ghost use Rattle.type_catalog.specs.Shipped.{flavor_test as the_flavor_test};

use crate::cases::Teller;
use crate::given::{fault_words, ids_of, props_of, template_of};
use heat_value::{Props, Seq, Text};
use hot_params::{Bound, bind};
use hot_tree::Template;
use std::alloc::{AllocError, Global};
use type_catalog::{Ask, Custom, Registry, flavor_test, is_flavor};

// A registry with the test of flavours.
fn flavors_of(alloc: Global) -> Result<Registry, AllocError> {
    let ask: Ask = Box::new(
        alloc,
        |text: &Text| -> bool
            ensures { result ≡ is_listed the_flavor_test.allowed text.now }
        { is_flavor(text) },
    )?;
    let mut customs = Seq::new(alloc);
    customs.push(Custom::new(flavor_test(alloc)?, ask))?;
    Registry::new(Seq::new(alloc), customs).ok_or(AllocError)
}

/// What a parameter is bound to, in words.
pub(crate) fn value_words(alloc: Global, bound: &Bound, name: &str) -> Result<String, AllocError> {
    match bound.params.as_props().get(&Text::from_str(alloc, name)?) {
        Some(value) => value.text(alloc)?.as_str().replace(alloc, "\"", "'"),
        None => String::from_str(alloc, "nothing"),
    }
}

// What x is bound to, or the fault.
fn bound_words(
    alloc: Global,
    template: &Template,
    given: &Props,
    registry: &Registry,
) -> Result<String, AllocError>
    requires template { members_depth template.now ≤ 64 }
    requires given { members_depth given.now ≤ 64 }
{
    let ids = ids_of(alloc)?;
    match bind(alloc, template, given, &ids, registry) {
        Ok(bound) => value_words(alloc, &bound, "x"),
        Err(fault) => fault_words(alloc, fault.code(), fault.path()),
    }
}

// The same where the test of flavours is registered.
fn told_of(alloc: Global, template: &Template, given: &Props) -> Result<String, AllocError>
    requires template { members_depth template.now ≤ 64 }
    requires given { members_depth given.now ≤ 64 }
{
    let registry = flavors_of(alloc)?;
    bound_words(alloc, template, given, &registry)
}

/// The parameter x is declared by its type and what stands beside it: what it is bound to by the members
/// that are given, or the fault.
pub(crate) struct Bindings;

impl Teller for Bindings {
    fn told(&self, alloc: Global, sections: &str, beside: &str) -> Result<String, AllocError> {
        let params = format!(in alloc; "'parameters':{{'x':{{'type':{sections}}}}}")?;
        let given = format!(in alloc; "{{{beside}}}")?;
        let template = template_of(alloc, params.as_str())?;
        let given = props_of(alloc, given.as_str())?;
        told_of(alloc, &template, &given)
    }
}
