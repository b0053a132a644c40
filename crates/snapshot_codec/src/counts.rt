//! How many changes a state's snapshot has.
ghost use Rattle.std.specs.Prelude.{◌≡◌, ◌-◌, ◌^◌, All, flat_map, length, map, min};
ghost use Rattle.core_state.specs.declared.change.Change.TheVariants.{PutPoint};
ghost use Rattle.core_state.specs.declared.graph.Graph.{Graph as graph_type};
ghost use Rattle.state_images.specs.Formed.{IsAligned};
ghost use Rattle.state_images.specs.Images.{IsMade};
ghost use Rattle.state_images.specs.Snapshots.{last_changes, snapshot, stack_changes, work_changes};

use core_state::{Graph, State};

/// How many changes the snapshot has; 2^64 - 1 where it has more.
pub(crate) fn change_count(s: &State) -> u64
    requires { IsMade s.now.state }
    ensures { result ≡ min (length (snapshot s.now.state)) (2 ^ 64 - 1) }
{
    let tables = stack_count(s).saturating_add(work_count(s));
    tables.saturating_add(last_count(s)) as u64
}

// Of stacks, their graphs, the points of these, and pasts.
fn stack_count(s: &State) -> usize
    requires { IsMade s.now.state }
    ensures { result ≡ min (length (stack_changes s.now.state)) (2 ^ 64 - 1) }
{
    let stacks = s.stacks().len();
    let graphs = s.graphs().len();
    let points = point_count(s.graphs());
    let pasts = s.pasts().len();
    stacks
        .saturating_add(graphs)
        .saturating_add(points)
        .saturating_add(pasts)
}

// Of rows, letters and jobs.
fn work_count(s: &State) -> usize
    ensures { result ≡ min (length (work_changes s.now.state)) (2 ^ 64 - 1) }
{
    let rows = s.rows().len();
    let letters = s.letters().len();
    let jobs = s.jobs().len();
    rows.saturating_add(letters).saturating_add(jobs)
}

// Of live engines and released tokens, and the next numbers.
fn last_count(s: &State) -> usize
    ensures { result ≡ min (length (last_changes s.now.state)) (2 ^ 64 - 1) }
{
    let live = s.live().len();
    let released = s.released().len();
    live.saturating_add(released).saturating_add(1)
}

// How many points the graphs have, one for each node.
fn point_count(graphs: &[Graph]) -> usize
    requires { All IsAligned graphs.now }
    ensures { result
        ≡ min (length (flat_map (λ (g : graph_type). map PutPoint g.points) graphs.now)) (2 ^ 64 - 1) }
{
    let mut count: usize = 0;
    for graph in graphs {
        count = count.saturating_add(graph.graph.nodes.len());
    }
    count
}
