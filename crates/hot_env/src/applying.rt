//! A template with an environment's defaults and other names of types.
ghost use Rattle.std.specs.Prelude.{◌≡◌, IfOk, None};
ghost use Rattle.heat_value.specs.Data.{fields as fields_data};
ghost use Rattle.heat_value.specs.Meaning.{data_of};
ghost use Rattle.hot_tree.specs.Template.{IsRight};
ghost use Rattle.hot_tree.specs.Whole.{template_flaw};
ghost use Rattle.hot_env.specs.Applied.{applied as the_applied, section_applied as the_section_applied};

use crate::Env;
use crate::defaults::params_defaulted;
use crate::renames::resources_renamed;
use heat_value::{Member, Props, TryCopy, Value};
use hot_tree::{HotFault, Template};
use std::alloc::{AllocError, Global};

impl Env {
    /// The template with the environment's defaults of parameters and the other names of types, of resources and inside
    /// groups. Names of defaults that the template lacks are passed over.
    pub fn template(&self, alloc: Global, template: &Template) -> Result<Template, AllocError>
        ensures { IfOk result (λ t. t ≡ the_applied self.now template.now) }
    {
        right(alloc, applied(alloc, self, template.fields())?)
    }
}

// A right object as a template.
fn right(alloc: Global, fields: Props) -> Result<Template, AllocError>
    requires { IsRight fields }
    ensures { IfOk result (λ t. t ≡ fields) }
{
    match Template::from_value(alloc, &Value::Fields(fields)) {
        Ok(template) => Ok(template),
        Err(HotFault::Memory) => Err(AllocError),
        Err(HotFault::Wrong(_)) => unreachable!(),
    }
}

// Each section, made over.
fn applied(alloc: Global, env: &Env, template: &Props) -> Result<Props, AllocError>
    ensures { IfOk result (λ p. p ≡ the_applied env.now template.now) }
{
    let mut all = Props::new(alloc);
    for member in template.as_slice() {
        all.put(member.key.copy()?, section_applied(alloc, env, member)?)?;
    }
    Ok(all)
}

// A section: parameters with their defaults, resources with their types renamed, any other as it is.
fn section_applied(alloc: Global, env: &Env, section: &Member) -> Result<Value, AllocError>
    ensures { IfOk result (λ v. data_of v
        ≡ the_section_applied env.now section.now.key (data_of section.now.value)) }
{
    if section.key.as_str() == "parameters" {
        return params_defaulted(alloc, &env.defaults, &section.value);
    }
    if section.key.as_str() == "resources" {
        return resources_renamed(alloc, &env.types, &section.value);
    }
    section.value.copy()
}
