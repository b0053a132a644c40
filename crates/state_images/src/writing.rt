//! Changes from a state: those that make it of nothing.
ghost use Rattle.std.specs.Prelude.{◌≡◌, ◌++◌, All, IfOk, OnOk, flat_map, map};
ghost use Rattle.core_state.specs.declared.change.Change.TheVariants as change;
ghost use Rattle.core_state.specs.declared.graph.Graph.{Graph as graph_type};
ghost use Rattle.step_relation.specs.Images.{IsMade};
ghost use Rattle.state_images.specs.Formed.{IsAligned};
ghost use Rattle.state_images.specs.Snapshots.{IsSnapshot, last_changes, snapshot, stack_changes, work_changes};

use crate::aligned::aligned_graphs;
use core_state::{Batch, Change, Graph, Job, Letter, Past, Row, Stack, State};
use heat_plan::{EngineNo, Token, TryCopy};
use std::alloc::{AllocError, Global};

/// The changes that make this state of nothing: of stacks, graphs, points, pasts, rows, letters, jobs, live
/// engines, released tokens, and the next numbers.
pub fn snapshot_of(alloc: Global, s: &State) -> Result<Batch<Change>, AllocError>
    requires { IsMade s.now.state }
    ensures made { IfOk result (IsSnapshot s.now.state) }
    ensures exact { IfOk result (λ changes. changes ≡ snapshot s.now.state) }
{
    let mut changes = Batch::new(alloc);
    add_stacks(&mut changes, s)?;
    add_work(&mut changes, s)?;
    add_last(&mut changes, s)?;
    Ok(changes)
}

// Of stacks, their graphs, the points of these, and pasts.
fn add_stacks(changes: &mut Batch<Change>, s: &State) -> Result<(), AllocError>
    requires { IsMade s.now.state }
    ensures { OnOk result (changes.new ≡ changes.old ++ stack_changes s.now.state) }
{
    let graphs = aligned_graphs(s);
    add_stack_records(changes, s.stacks())?;
    add_graphs(changes, graphs)?;
    add_points(changes, graphs)?;
    add_pasts(changes, s.pasts())
}

// Of rows, letters and jobs.
fn add_work(changes: &mut Batch<Change>, s: &State) -> Result<(), AllocError>
    ensures { OnOk result (changes.new ≡ changes.old ++ work_changes s.now.state) }
{
    add_rows(changes, s.rows())?;
    add_letters(changes, s.letters())?;
    add_jobs(changes, s.jobs())
}

// Of live engines and released tokens, and the next numbers.
fn add_last(changes: &mut Batch<Change>, s: &State) -> Result<(), AllocError>
    ensures { OnOk result (changes.new ≡ changes.old ++ last_changes s.now.state) }
{
    add_live(changes, s.live())?;
    add_released(changes, s.released())?;
    changes.push(Change::Numbers(*s.next()))
}

fn add_stack_records(changes: &mut Batch<Change>, stacks: &[Stack]) -> Result<(), AllocError>
    ensures { OnOk result (changes.new ≡ changes.old ++ map change.PutStack stacks.now) }
{
    for stack in stacks {
        changes.push(Change::PutStack(stack.copy()?))?;
    }
    Ok(())
}

fn add_graphs(changes: &mut Batch<Change>, graphs: &[Graph]) -> Result<(), AllocError>
    ensures { OnOk result (changes.new
        ≡ changes.old ++ map (λ (g : graph_type). change.PutGraph g.stack g.graph) graphs.now) }
{
    for graph in graphs {
        changes.push(Change::PutGraph(graph.stack.copy()?, graph.graph.copy()?))?;
    }
    Ok(())
}

fn add_points(changes: &mut Batch<Change>, graphs: &[Graph]) -> Result<(), AllocError>
    requires { All IsAligned graphs.now }
    ensures { OnOk result (changes.new
        ≡ changes.old ++ flat_map (λ (g : graph_type). map change.PutPoint g.points) graphs.now) }
{
    for graph in graphs {
        add_points_of(changes, graph)?;
    }
    Ok(())
}

fn add_points_of(changes: &mut Batch<Change>, graph: &Graph) -> Result<(), AllocError>
    requires { IsAligned graph.now }
    ensures { OnOk result (changes.new ≡ changes.old ++ map change.PutPoint graph.now.points) }
{
    for place in 0..graph.graph.nodes.len() {
        if let Some(point) = graph.points.get(place) {
            changes.push(Change::PutPoint(point.copy()?))?;
        }
    }
    Ok(())
}

fn add_pasts(changes: &mut Batch<Change>, pasts: &[Past]) -> Result<(), AllocError>
    ensures { OnOk result (changes.new ≡ changes.old ++ map change.PutPast pasts.now) }
{
    for past in pasts {
        changes.push(Change::PutPast(past.copy()?))?;
    }
    Ok(())
}

fn add_rows(changes: &mut Batch<Change>, rows: &[Row]) -> Result<(), AllocError>
    ensures { OnOk result (changes.new ≡ changes.old ++ map change.PutRow rows.now) }
{
    for row in rows {
        changes.push(Change::PutRow(row.copy()?))?;
    }
    Ok(())
}

fn add_letters(changes: &mut Batch<Change>, letters: &[Letter]) -> Result<(), AllocError>
    ensures { OnOk result (changes.new ≡ changes.old ++ map change.Send letters.now) }
{
    for letter in letters {
        changes.push(Change::Send(letter.copy()?))?;
    }
    Ok(())
}

fn add_jobs(changes: &mut Batch<Change>, jobs: &[Job]) -> Result<(), AllocError>
    ensures { OnOk result (changes.new ≡ changes.old ++ map change.PutJob jobs.now) }
{
    for job in jobs {
        changes.push(Change::PutJob(job.copy()?))?;
    }
    Ok(())
}

fn add_live(changes: &mut Batch<Change>, live: &[EngineNo]) -> Result<(), AllocError>
    ensures { OnOk result (changes.new ≡ changes.old ++ map change.Enlist live.now) }
{
    for engine in live {
        changes.push(Change::Enlist(*engine))?;
    }
    Ok(())
}

fn add_released(changes: &mut Batch<Change>, released: &[Token]) -> Result<(), AllocError>
    ensures { OnOk result (changes.new ≡ changes.old ++ map change.Release released.now) }
{
    for token in released {
        changes.push(Change::Release(token.copy()?))?;
    }
    Ok(())
}
