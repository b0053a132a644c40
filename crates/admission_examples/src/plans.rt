//! Bodies of creates: their plans, or the first of their faults.
use crate::cases::{Case, Teller, wrong_among};
use crate::given::{catalog_of, fault_words, ids_of, registry_of};
use crate::words::bound_plan_words;
use hot_catalog::Catalog;
use script_lines::{Body, Line};
use std::alloc::{AllocError, Global};
use std::test::Fail;
use template_plans::plan_of;
use type_catalog::Registry;

// A box with a property.
const KINDS: &str = "{'Box':{'properties':{'size':{}}}}";

// What the plan of a body is among these kinds, in words.
fn plan_with(
    alloc: Global,
    body: &Body,
    catalog: &Catalog,
    registry: &Registry,
) -> Result<String, AllocError> {
    let ids = ids_of(alloc)?;
    match plan_of(alloc, body, catalog, &ids, registry) {
        Ok(plan) => bound_plan_words(alloc, &plan),
        Err(fault) => fault_words(alloc, fault.code(), fault.path()),
    }
}

// The same among the kinds above.
fn plan_among(alloc: Global, body: &Body) -> Result<String, AllocError> {
    let registry = registry_of(alloc)?;
    let catalog = catalog_of(alloc, &registry, KINDS)?;
    plan_with(alloc, body, &catalog, &registry)
}

// The plan of the body of a create.
fn judged(alloc: Global, line: &[u8]) -> Result<String, AllocError> {
    match Line::read(alloc, line) {
        Ok(Line::Create(_, body)) => plan_among(alloc, &body),
        Ok(_) => Err(AllocError),
        Err(_) => Err(AllocError),
    }
}

// What is planned for a body with a template of these sections and what stands beside it.
struct Planned;

impl Teller for Planned {
    fn told(&self, alloc: Global, sections: &str, beside: &str) -> Result<String, AllocError> {
        let line = format!(in alloc;
            "create s {{'template':{{'heat_template_version':'rocky'{sections}}}{beside}}}"
        )?;
        let line = line.replace(alloc, "'", "\"")?;
        judged(alloc, line.as_bytes())
    }
}

const BODIES: &[Case] = &[
    ("", "", "OS::project_id! OS::stack_id! OS::stack_name! "),
    (
        ",'parameters':{'p':{'type':'number'}},'resources':{'b':{'type':'Box'},'a':{'type':'Box'}}",
        ",'parameters':{'p':1},'files':{'f':'F'}",
        "a:Box b:Box f@F OS::project_id! OS::stack_id! OS::stack_name! p! ",
    ),
    (
        ",'resource':{}",
        ",'parameters':{'q':1}",
        "H05 ['resource']",
    ),
    (
        ",'resources':{'a':{'type':'Bag','depends_on':1}}",
        ",'parameters':{'q':1}",
        "H17 ['resources','a','depends_on']",
    ),
    (
        ",'resources':{'a':{'type':'Bag'}}",
        ",'parameters':{'q':1}",
        "P02 ['parameters','q']",
    ),
    (
        ",'conditions':{'c':'c'},'resources':{'a':{'type':'Bag'}}",
        ",'parameters':{}",
        "C01 ['conditions','c']",
    ),
    (
        ",'resources':{'a':{'type':'Bag'}}",
        ",'parameters':{}",
        "A01 ['resources','a','type']",
    ),
    (
        ",'resources':{'a':{'type':'Box','depends_on':'a'}}",
        ",'parameters':{}",
        "A04 ['a']",
    ),
];

#[test]
fn bodies_have_their_plans(rt: HostRuntime) -> Result<(), Fail> {
    let wrong = wrong_among(rt.alloc(), &Planned, BODIES)?;
    assert_eq!(rt; wrong.as_str(), "");
    Ok(())
}
