//! The conditions of a template: their values, or the first fault.
ghost use Rattle.std.specs.Prelude.{◌≡◌, ◌<◌, None, IfOk, IfErr, OnOk, Some, false, true, length, map};
ghost use Rattle.std.specs.Prelude.{option_map, replicate};
ghost use Rattle.heat_value.specs.Data.{Rises};
ghost use Rattle.heat_value.specs.Meaning.{data_of, members_of};
ghost use Rattle.hot_admit.specs.Conds.{AreCondsOf, IsCondFaultOf, IsCyclicFault, IsUnvaluedFault, held, flags_of};
ghost use Rattle.hot_admit.specs.Conds.{condition_path as the_condition_path, entry_path as the_entry_path};
ghost use Rattle.hot_admit.specs.Conds.{resource_wanted, output_wanted, unvalued_resource, unvalued_output};
ghost use Rattle.hot_admit.specs.Naming.{IsNamingOrder};
ghost use Rattle.hot_admit.specs.Resources.{resources_data, outputs_data};
ghost use Rattle.hot_admit.specs.Valuing.{AreFound, Grows, IsFoundAt, AddsRound, FindsOne};
ghost use Rattle.eval_words.specs.Conditions.{first_unvalued, values_of};

use crate::conds::{Conds, Wanted};
use crate::fault::CondFault;
use crate::names::names_graph;
use crate::waiting::{Due, Waiting};
use dep_graph::{Order, least_on_loop};
use heat_plan::{ByName, Condition};
use heat_value::{Member, Path, Props, Seq, Step, Text, TryCopy, Value};
use hot_eval::{ValuedConds, flag_of, flag_or_missed};
use hot_params::Bound;
use hot_tree::{Out, Res, Template};
use std::alloc::{AllocError, Global};

/// The values of a template's conditions, and which of its resources and outputs are wanted; or C01 at
/// the least condition that is on a cycle of names, else C02 at the first condition, then the first
/// resource's, then the first output's, that has no value.
pub fn conditions(alloc: Global, template: &Template, bound: &Bound) -> Result<Conds, CondFault>
    ensures ok { IfOk result (λ c. AreCondsOf bound.now.params template.now c) }
    ensures fault { IfErr result (λ e. IsCondFaultOf bound.now.params template.now e) }
{
    let parts = template.parts();
    let members = parts.conds.as_slice();
    let order = order_of(alloc, members)?;
    let params = bound.params.as_props();
    let conds = values_in(alloc, params, members, order.as_slice())?;
    let resources = wanted_resources(alloc, params, &conds, parts.resources.as_slice())?;
    let outputs = wanted_outputs(alloc, params, &conds, parts.outputs.as_slice())?;
    Ok(Conds {
        conds,
        resources,
        outputs,
    })
}

// The places of the conditions in an order in which each comes behind those that it names; C01 where
// there is none.
fn order_of(alloc: Global, conds: &[Member]) -> Result<Seq<u32>, CondFault>
    requires { Rises (members_of conds.now) }
    ensures ok { IfOk result (λ order. IsNamingOrder (members_of conds.now) order) }
    ensures fault { IfErr result (λ e. IsCyclicFault (members_of conds.now) e) }
{
    let graph = names_graph(alloc, conds)?;
    match graph.order()? {
        Order::Order(order) => Ok(order),
        Order::Cycle(_) => match least_on_loop(&graph)? {
            Some(place) => Err(CondFault::C01(condition_path(alloc, &conds[place as usize].key)?)),
            None => unreachable!(),
        },
    }
}

// The path of a named condition.
fn condition_path(alloc: Global, name: &Text) -> Result<Path, AllocError>
    ensures { IfOk result (λ p. p ≡ the_condition_path name.now) }
{
    let mut path = Path::root(alloc);
    path.push(Step::Key(Text::from_str(alloc, "conditions")?))?;
    path.push(Step::Key(name.copy()?))?;
    Ok(path)
}

// The values of the conditions, by their names; C02 of the first that has none.
fn values_in(
    alloc: Global,
    params: &Props,
    conds: &[Member],
    order: &[u32],
) -> Result<ByName<Condition>, CondFault>
    requires rising { Rises (members_of conds.now) }
    requires order { IsNamingOrder (members_of conds.now) order.now }
    ensures ok { IfOk result (λ known. known ≡ values_of params.now (members_of conds.now)) }
    ensures each { OnOk result (first_unvalued params.now
        (values_of params.now (members_of conds.now)) (members_of conds.now) ≡ None) }
    ensures fault { IfErr result (λ e. IsUnvaluedFault (first_unvalued params.now
        (values_of params.now (members_of conds.now)) (members_of conds.now)) e) }
{
    let values = evaluated(alloc, params, conds, order)?;
    let mut known = Seq::with_capacity(alloc, conds.len())?;
    for (place, cond) in conds.iter().enumerate() {
        match values[place] {
            Some(value) => known.push(named(&cond.key, value)?)?,
            None => return Err(CondFault::C02(condition_path(alloc, &cond.key)?)),
        }
    }
    Ok(ByName::from_list(known))
}

// A condition that has a value.
fn named(name: &Text, value: bool) -> Result<Condition, AllocError>
    ensures { IfOk result (λ c. c ≡ record { name = name.now; value = value }) }
{
    Ok(Condition {
        name: name.copy()?,
        value,
    })
}

// The value of each condition by its place, where it has one. An order in which each comes behind those
// that it names finds them at once, but for what a `repeat` makes of a name that is written; what waits for
// such a one is found in the same round.
fn evaluated(
    alloc: Global,
    params: &Props,
    conds: &[Member],
    order: &[u32],
) -> Result<Vec<Option<bool>>, AllocError>
    requires rising { Rises (members_of conds.now) }
    requires order { IsNamingOrder (members_of conds.now) order.now }
    ensures { IfOk result (λ values. values.items ≡ flags_of params.now
        (values_of params.now (members_of conds.now)) (members_of conds.now)) }
{
    let mut values = no_values(alloc, conds.len())?;
    for _round in 0..conds.len() {
        if !find_more(alloc, params, conds, order, &mut values)? {
            return Ok(values);
        }
    }
    Ok(values)
}

// So many conditions, none with a value.
fn no_values(alloc: Global, count: usize) -> Result<Vec<Option<bool>>, AllocError>
    ensures { IfOk result (λ values. values.items ≡ replicate count None) }
{
    vec![in alloc; None; count]
}

// Finds the values of those that have one where these are known, and of more on the way; whether any was
// found.
fn find_more(
    alloc: Global,
    params: &Props,
    conds: &[Member],
    order: &[u32],
    values: &mut Vec<Option<bool>>,
) -> Result<bool, AllocError>
    requires rising { Rises (members_of conds.now) }
    requires order { IsNamingOrder (members_of conds.now) order.now }
    requires found { AreFound params.now (members_of conds.now) values.old.items }
    ensures found { OnOk result (AreFound params.now (members_of conds.now) values.new.items) }
    ensures round { OnOk result
        (AddsRound params.now (members_of conds.now) values.old.items values.new.items) }
    ensures same { IfOk result (λ any. any ≡ false → values.new.items ≡ values.old.items) }
    ensures more { IfOk result
        (λ any. any ≡ true → FindsOne (members_of conds.now) values.old.items values.new.items) }
{
    let mut waiting = Waiting::new(alloc, conds.len())?;
    if !find_in_order(alloc, params, conds, order, values, &mut waiting)? {
        return Ok(false);
    }
    find_due(alloc, params, conds, values, &mut waiting)?;
    Ok(true)
}

// Tries each condition once; whether any value was found.
fn find_in_order(
    alloc: Global,
    params: &Props,
    conds: &[Member],
    order: &[u32],
    values: &mut Vec<Option<bool>>,
    waiting: &mut Waiting,
) -> Result<bool, AllocError>
    requires rising { Rises (members_of conds.now) }
    requires order { IsNamingOrder (members_of conds.now) order.now }
    requires found { AreFound params.now (members_of conds.now) values.old.items }
    requires count { waiting.old ≡ length conds.now }
    ensures found { OnOk result (AreFound params.now (members_of conds.now) values.new.items) }
    ensures round { OnOk result
        (AddsRound params.now (members_of conds.now) values.old.items values.new.items) }
    ensures same { IfOk result (λ any. any ≡ false → values.new.items ≡ values.old.items) }
    ensures more { IfOk result
        (λ any. any ≡ true → FindsOne (members_of conds.now) values.old.items values.new.items) }
    ensures count { waiting.new ≡ waiting.old }
{
    let mut any = false;
    for place in order {
        if find_at(alloc, params, conds, Due::first(*place), values, waiting)? {
            any = true;
        }
    }
    Ok(any)
}

// Tries those that are due, which are more as values are found. Each waits for each other one once at most.
fn find_due(
    alloc: Global,
    params: &Props,
    conds: &[Member],
    values: &mut Vec<Option<bool>>,
    waiting: &mut Waiting,
) -> Result<(), AllocError>
    requires rising { Rises (members_of conds.now) }
    requires found { AreFound params.now (members_of conds.now) values.old.items }
    requires count { waiting.old ≡ length conds.now }
    ensures found { OnOk result (AreFound params.now (members_of conds.now) values.new.items) }
    ensures grows { OnOk result (Grows (members_of conds.now) values.old.items values.new.items) }
{
    for _try in 0..conds.len().saturating_mul(conds.len()) {
        let Some(due) = waiting.take_next() else {
            return Ok(());
        };
        find_at(alloc, params, conds, due, values, waiting)?;
    }
    Ok(())
}

// Finds the value of the condition that is due, if it has one where these are known; whether it was found.
fn find_at(
    alloc: Global,
    params: &Props,
    conds: &[Member],
    due: Due,
    values: &mut Vec<Option<bool>>,
    waiting: &mut Waiting,
) -> Result<bool, AllocError>
    requires rising { Rises (members_of conds.now) }
    requires place { due.place < length conds.now }
    requires found { AreFound params.now (members_of conds.now) values.old.items }
    requires count { waiting.old ≡ length conds.now }
    ensures found { OnOk result (AreFound params.now (members_of conds.now) values.new.items) }
    ensures grows { OnOk result (Grows (members_of conds.now) values.old.items values.new.items) }
    ensures here { OnOk result
        (IsFoundAt params.now (members_of conds.now) values.old.items values.new.items due.place) }
    ensures same { IfOk result (λ any. any ≡ false → values.new.items ≡ values.old.items) }
    ensures more { IfOk result
        (λ any. any ≡ true → FindsOne (members_of conds.now) values.old.items values.new.items) }
    ensures count { waiting.new ≡ waiting.old }
{
    let place = due.place as usize;
    let cond = &conds[place];
    if values[place].is_some() {
        return Ok(false);
    }
    let known = ValuedConds::so_far(conds, values);
    let tried = flag_or_missed(alloc, &cond.value, params, known)?;
    waiting.note(due, &tried)?;
    match tried.flag {
        Some(value) => {
            values[place] = Some(value);
            Ok(true)
        }
        None => Ok(false),
    }
}

// Which resources are wanted; C02 of the first whose condition has no value.
fn wanted_resources(
    alloc: Global,
    params: &Props,
    known: &ByName<Condition>,
    resources: &[Res],
) -> Result<Seq<Wanted>, CondFault>
    ensures ok { IfOk result (λ ws. ws
        ≡ map (resource_wanted params.now known.now) (resources_data resources.now)) }
    ensures each { OnOk result (unvalued_resource params.now known.now (resources_data resources.now)
        ≡ None) }
    ensures fault { IfErr result (λ e. IsUnvaluedFault
        (unvalued_resource params.now known.now (resources_data resources.now)) e) }
{
    let mut all = Seq::with_capacity(alloc, resources.len())?;
    for res in resources {
        let Some(wanted) = holds(alloc, params, known, res.cond.as_ref())? else {
            return Err(unvalued_in(alloc, "resources", &res.name));
        };
        all.push(Wanted {
            name: res.name.copy()?,
            wanted,
        })?;
    }
    Ok(all)
}

// Which outputs are wanted; C02 of the first whose condition has no value.
fn wanted_outputs(
    alloc: Global,
    params: &Props,
    known: &ByName<Condition>,
    outputs: &[Out],
) -> Result<Seq<Wanted>, CondFault>
    ensures ok { IfOk result (λ ws. ws
        ≡ map (output_wanted params.now known.now) (outputs_data outputs.now)) }
    ensures each { OnOk result (unvalued_output params.now known.now (outputs_data outputs.now) ≡ None) }
    ensures fault { IfErr result (λ e. IsUnvaluedFault
        (unvalued_output params.now known.now (outputs_data outputs.now)) e) }
{
    let mut all = Seq::with_capacity(alloc, outputs.len())?;
    for out in outputs {
        let Some(wanted) = holds(alloc, params, known, out.cond.as_ref())? else {
            return Err(unvalued_in(alloc, "outputs", &out.name));
        };
        all.push(Wanted {
            name: out.name.copy()?,
            wanted,
        })?;
    }
    Ok(all)
}

// Whether the `condition` of an entry holds; where there is none it does.
fn holds(
    alloc: Global,
    params: &Props,
    known: &ByName<Condition>,
    condition: Option<&Value>,
) -> Result<Option<bool>, AllocError>
    ensures { IfOk result (λ o. o ≡ held params.now known.now
        (option_map (λ v. data_of v.now) condition.entry)) }
{
    match condition {
        Some(condition) => flag_of(alloc, condition, params, ValuedConds::All(known)),
        None => Ok(Some(true)),
    }
}

// C02 of an entry's `condition`.
fn unvalued_in(alloc: Global, section: &str, name: &Text) -> CondFault
    ensures { IsUnvaluedFault (Some (the_entry_path section.now name.now)) result }
{
    match entry_path(alloc, section, name) {
        Ok(path) => CondFault::C02(path),
        Err(_) => CondFault::Memory,
    }
}

// The place of the condition that an entry of a section has.
fn entry_path(alloc: Global, section: &str, name: &Text) -> Result<Path, AllocError>
    ensures { IfOk result (λ p. p ≡ the_entry_path section.now name.now) }
{
    let mut path = Path::root(alloc);
    path.push(Step::Key(Text::from_str(alloc, section)?))?;
    path.push(Step::Key(name.copy()?))?;
    path.push(Step::Key(Text::from_str(alloc, "condition")?))?;
    Ok(path)
}
