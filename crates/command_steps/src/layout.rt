//! What a command lays out: which rows its items take, the graph, and where it begins.
ghost use Rattle.std.specs.Prelude.{◌≡◌, ◌⊎◌, IfOk, IfErr, map, length};
ghost use Rattle.heat_plan.specs.Order.{Rising};
ghost use Rattle.heat_plan.specs.Plans.{names_of};
ghost use Rattle.heat_plan.specs.declared.refusal.Refusal.TheVariants.{Memory, Worn};
ghost use Rattle.step_relation.specs.Commands.{Lays, brief_of};
ghost use Rattle.command_steps.specs.Choices.{lacking};
ghost use Rattle.command_steps.specs.Layouts.{HasNumbers, IsLaidOut};

use crate::choice::{found_for, lacking, numbered};
use crate::numbers::has_numbers;
use core_state::{Row, State};
use heat_plan::{Item, Refusal, RowNo, StackName};
use heat_value::{Seq, TryCopy};
use std::alloc::{AllocError, Global};
use step_reads::rows_of;
use traversal_graph::{RowBrief, TravGraph, build};

/// The rows that the items take, none where one is to be made; the graph; and its leaves.
#[derive(Debug, Drop)]
pub struct Layout {
    pub found: Seq<Option<RowNo>>,
    pub graph: TravGraph,
    pub leaves: Seq<u32>,
}

impl TryCopy for Layout {
    fn copy(&self) -> Result<Layout, AllocError> {
        let found = Vec::from_slice(self.found.allocator(), self.found.as_slice())?;
        let leaves = Vec::from_slice(self.leaves.allocator(), self.leaves.as_slice())?;
        Ok(Layout {
            found: Seq::from_vec(found),
            graph: self.graph.copy()?,
            leaves: Seq::from_vec(leaves),
        })
    }
}

/// What a command of these items lays out, where the numbers suffice: so many of stacks, one of a
/// traversal, and one of each row and each letter that is made. Refuses `Worn` where they don't.
pub(crate) fn numbered_layout(
    alloc: Global,
    s: &State,
    stack: &StackName,
    items: &[Item],
    stacks: u64,
) -> Result<Layout, Refusal>
    requires { Rising (names_of items.now) }
    ensures ok { IfOk result (IsLaidOut s.now.state stack.now items.now) }
    ensures room { IfOk result (λ l.
        HasNumbers s.now.state.next stacks (lacking l.found) (length l.leaves)) }
    ensures err { IfErr result (λ r. (r ≡ Memory)
        ⊎ ((r ≡ Worn) × (k : Lays s.now.state stack.now items.now)
        × ¬ HasNumbers s.now.state.next stacks (length k.rows) (length k.leaves))) }
{
    let layout = laid_out(alloc, s, stack, items)?;
    let rows = lacking(layout.found.as_slice());
    if has_numbers(s.next(), stacks, rows, layout.leaves.len()) {
        Ok(layout)
    } else {
        Err(Refusal::Worn)
    }
}

// What a command of these items lays out, whether or not the numbers suffice.
fn laid_out(
    alloc: Global,
    s: &State,
    stack: &StackName,
    items: &[Item],
) -> Result<Layout, AllocError>
    requires { Rising (names_of items.now) }
    ensures { IfOk result (IsLaidOut s.now.state stack.now items.now) }
{
    let standing = rows_of(alloc, s, stack)?;
    let found = found_for(alloc, standing.as_slice(), items)?;
    let chosen = numbered(alloc, s.next().row, found.as_slice())?;
    let briefs = briefs_of(alloc, standing.as_slice())?;
    let graph = build(alloc, items, chosen.as_slice(), briefs.as_slice())?;
    let leaves = graph.leaves()?;
    Ok(Layout {
        found,
        graph,
        leaves,
    })
}

// What the graph reads of each row.
fn briefs_of(alloc: Global, rows: &[&Row]) -> Result<Vec<RowBrief>, AllocError>
    ensures { IfOk result (λ briefs. briefs.items ≡ map brief_of (map (λ r. r.now) rows.now)) }
{
    let mut briefs = Vec::with_capacity(alloc, rows.len())?;
    for row in rows {
        briefs.push(brief_of(row)?)?;
    }
    Ok(briefs)
}

// What the graph reads of one row.
fn brief_of(row: &Row) -> Result<RowBrief, AllocError>
    ensures { IfOk result (λ brief. brief ≡ brief_of row.now) }
{
    let required = Vec::from_slice(row.requires_.allocator(), row.requires_.as_slice())?;
    Ok(RowBrief {
        no: row.no,
        name: row.name.copy()?,
        requires_: Seq::from_vec(required),
        replaces: row.replaces,
    })
}
