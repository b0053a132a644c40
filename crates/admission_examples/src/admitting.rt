//! What a template is admitted as, among two kinds and two files.
ghost use Rattle.std.specs.Prelude.{◌≤◌};
ghost use Rattle.heat_value.specs.Data.{members_depth};

use crate::cases::Teller;
use crate::given::{bound_of, catalog_of, fault_words, props_of, registry_of, template_of};
use crate::words::plan_words;
use heat_plan::Plan;
use heat_value::Props;
use hot_admit::{AdmitFault, admit};
use hot_catalog::Catalog;
use hot_params::Bound;
use hot_tree::Template;
use std::alloc::{AllocError, Global};

// The kinds: a box with attributes and no property that has to be there, and a net.
const KINDS: &str =
    "{'Box':{'attributes':['addr','size'],'properties':{'link':{'update_allowed':true},\
'size':{'update_allowed':true},'zone':{}}},'Net':{'attributes':{'cidr':{}},'properties':\
{'cidr':{'required':true},'name':{'required':true,'update_allowed':true}}}}";

// The words of a plan, or of a fault.
fn words_of(alloc: Global, admitted: Result<Plan, AdmitFault>) -> Result<String, AllocError> {
    match admitted {
        Ok(plan) => plan_words(alloc, &plan),
        Err(fault) => fault_words(alloc, fault.code(), fault.path()),
    }
}

/// The kinds above.
pub(crate) fn kinds_of(alloc: Global) -> Result<Catalog, AllocError> {
    let registry = registry_of(alloc)?;
    catalog_of(alloc, &registry, KINDS)
}

// What a template is admitted as with these files.
fn admitted_with(
    alloc: Global,
    template: &Template,
    bound: &Bound,
    files: &Props,
) -> Result<String, AllocError>
    requires { members_depth template.now ≤ 64 }
{
    let catalog = kinds_of(alloc)?;
    words_of(alloc, admit(alloc, template, bound, files, &catalog))
}

// The same with the files f and g.
fn admitted_as(alloc: Global, template: &Template, bound: &Bound) -> Result<String, AllocError>
    requires { members_depth template.now ≤ 64 }
{
    let files = props_of(alloc, "{'f':'F','g':'G'}")?;
    admitted_with(alloc, template, bound, &files)
}

/// What a template is admitted as with these parameters, or why it isn't.
pub(crate) struct Admitted;

impl Teller for Admitted {
    fn told(&self, alloc: Global, sections: &str, beside: &str) -> Result<String, AllocError> {
        let template = template_of(alloc, sections)?;
        let bound = bound_of(alloc, &template, beside)?;
        admitted_as(alloc, &template, &bound)
    }
}
