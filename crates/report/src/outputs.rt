//! The lines of a stack's outputs, by name, with the facts of its current rows.
ghost use Rattle.std.specs.Prelude.{◌≡◌, ◌++◌, [], IfOk, OnOk, Option, Some, option_map, string_bytes};
ghost use Rattle.eval_words.specs.Scenes.{scene_of};
ghost use Rattle.report.specs.Stacks.{plan_seen};
ghost use Rattle.report.specs.Outputs.{is_current as the_is_current, named, known_in as the_known_in};
ghost use Rattle.report.specs.Outputs.{output_lines as the_output_lines, joined as the_joined};
ghost use Rattle.report.specs.Outputs.{outputs_text as the_outputs_text};

use crate::brief::{SeenRow, SeenStack};
use crate::output_line::OutputLine;
use heat_plan::{Act, KnownFacts, Plan, StackName};
use heat_value::{Seq, TryCopy};
use keyed_table::SortedList;
use std::alloc::{AllocError, Global};

/// A line for each output of a stack's plan; none where the stack isn't seen or has no plan.
pub(crate) fn outputs_text(
    alloc: Global,
    name: &StackName,
    stack: Option<&SeenStack>,
    rows: &[SeenRow],
) -> Result<String, AllocError>
    ensures { IfOk result (λ s. string_bytes s
        ≡ the_outputs_text name.now rows.now (plan_seen (option_map (λ k. k.now) stack.entry))) }
{
    match stack {
        Some(stack) => match &stack.plan {
            Some(shared) => plan_text(alloc, name, rows, shared.plan()),
            None => Ok(String::new(alloc)),
        },
        None => Ok(String::new(alloc)),
    }
}

// The outputs that a plan asks for, by the facts of the stack's current rows.
fn plan_text(
    alloc: Global,
    stack: &StackName,
    rows: &[SeenRow],
    plan: &Plan,
) -> Result<String, AllocError>
    ensures { IfOk result (λ s. string_bytes s
        ≡ the_outputs_text stack.now rows.now (Some plan.now)) }
{
    let known = known_in(alloc, stack, rows)?;
    let lines = output_lines(alloc, plan, known.as_slice())?;
    joined(alloc, lines.as_slice())
}

// The facts of a stack's current rows.
fn known_in(
    alloc: Global,
    stack: &StackName,
    rows: &[SeenRow],
) -> Result<Seq<KnownFacts>, AllocError>
    ensures { IfOk result (λ k. k ≡ the_known_in stack.now rows.now) }
{
    let mut known = Seq::new(alloc);
    for row in rows {
        if row.stack == *stack && is_current(row) {
            add_facts(&mut known, row)?;
        }
    }
    Ok(known)
}

// Whether the resource of its name stands in a row now.
fn is_current(row: &SeenRow) -> bool
    ensures { result ≡ the_is_current row.now }
{
    !matches!(row.act, Act::Delete) && row.replaced_by.is_none()
}

// Adds the facts of a row, if it has any.
fn add_facts(known: &mut Seq<KnownFacts>, row: &SeenRow) -> Result<(), AllocError>
    ensures { OnOk result (known.new ≡ known.old ++ named row.now.name row.now.facts) }
{
    match &row.facts {
        Some(facts) => known.push(KnownFacts {
            name: row.name.copy()?,
            facts: facts.copy()?,
        }),
        None => Ok(()),
    }
}

// The outputs' lines, by name.
fn output_lines(
    alloc: Global,
    plan: &Plan,
    known: &[KnownFacts],
) -> Result<SortedList<OutputLine>, AllocError>
    ensures { IfOk result (λ l. l.items
        ≡ the_output_lines [] (scene_of plan.now known.now) plan.now.outputs) }
{
    let mut lines = SortedList::new(alloc);
    for output in plan.outputs() {
        lines.reserve(1)?;
        let _ = lines.put(OutputLine::of(alloc, plan, known, output)?);
    }
    Ok(lines)
}

// All lines, one behind the other.
fn joined(alloc: Global, lines: &[OutputLine]) -> Result<String, AllocError>
    ensures { IfOk result (λ s. string_bytes s ≡ the_joined lines.now) }
{
    let mut text = String::new(alloc);
    for line in lines {
        text.push_str(line.text.as_str())?;
    }
    Ok(text)
}
