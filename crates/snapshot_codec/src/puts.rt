//! Writing a state's snapshot, table by table.
ghost use Rattle.std.specs.Prelude.{◌≡◌, All, flat_map, map};
ghost use Rattle.core_state.specs.declared.change.Change.TheVariants.{PutPoint};
ghost use Rattle.core_state.specs.declared.graph.Graph.{Graph as graph_type};
ghost use Rattle.plan_codec.specs.Sheets.{behind};
ghost use Rattle.state_images.specs.Formed.{IsAligned};
ghost use Rattle.state_images.specs.Images.{IsMade};
ghost use Rattle.state_images.specs.Snapshots.{last_changes, snapshot, stack_changes, work_changes};
ghost use Rattle.snapshot_codec.specs.Puts.{HasPut, IsKept, numbered};

use crate::counts::change_count;
use core_state::{Graph, State};
use plan_codec::{Sheet, put_number};
use row_codec::Brought;

/// Puts how many changes the snapshot has, and each.
pub(crate) fn put_snapshot(s: &State, sheet: &mut Sheet)
    requires { IsMade s.now.state }
    ensures bytes { sheet.new ≡ behind sheet.old (numbered (snapshot s.now.state)) }
    ensures proper { All IsKept (snapshot s.now.state) }
{
    put_number(change_count(s), sheet);
    put_stacks(s, sheet);
    put_work(s, sheet);
    put_last(s, sheet);
}

// Puts stacks, their graphs, the points of these, and pasts.
fn put_stacks(s: &State, sheet: &mut Sheet)
    requires { IsMade s.now.state }
    ensures { HasPut (stack_changes s.now.state) sheet.old sheet.new }
{
    put_each(s.stacks(), sheet);
    put_each(s.graphs(), sheet);
    put_points(s.graphs(), sheet);
    put_each(s.pasts(), sheet);
}

// Puts rows, letters and jobs.
fn put_work(s: &State, sheet: &mut Sheet)
    ensures { HasPut (work_changes s.now.state) sheet.old sheet.new }
{
    put_each(s.rows(), sheet);
    put_each(s.letters(), sheet);
    put_each(s.jobs(), sheet);
}

// Puts live engines and released tokens, and the next numbers.
fn put_last(s: &State, sheet: &mut Sheet)
    ensures { HasPut (last_changes s.now.state) sheet.old sheet.new }
{
    put_each(s.live(), sheet);
    put_each(s.released(), sheet);
    s.next().put_bringing(sheet);
}

// Puts the change that brings each of these things.
fn put_each<T: Brought>(things: &[T], sheet: &mut Sheet)
    ensures { HasPut (map T.bringing things.now) sheet.old sheet.new }
{
    for thing in things {
        thing.put_bringing(sheet);
    }
}

// Puts the points of each graph.
fn put_points(graphs: &[Graph], sheet: &mut Sheet)
    requires { All IsAligned graphs.now }
    ensures { HasPut (flat_map (λ (g : graph_type). map PutPoint g.points) graphs.now)
        sheet.old sheet.new }
{
    for graph in graphs {
        put_points_of(graph, sheet);
    }
}

// Puts a graph's points, one for each of its nodes.
fn put_points_of(graph: &Graph, sheet: &mut Sheet)
    requires { IsAligned graph.now }
    ensures { HasPut (map PutPoint graph.now.points) sheet.old sheet.new }
{
    for place in 0..graph.graph.nodes.len() {
        if let Some(point) = graph.points.get(place) {
            point.put_bringing(sheet);
        }
    }
}
