//! Whether each record of a state, taken alone, is as an image asks, table by table.
ghost use Rattle.std.specs.Prelude.{◌<◌, ◌↔◌, All, IsTrue, ℕ};
ghost use Rattle.step_relation.specs.Images.{IsMade};
ghost use Rattle.step_relation.specs.Numbered.{GraphBelow, LetterBelow, StackBelow};
ghost use Rattle.state_images.specs.Formed.{IsAligned};
ghost use Rattle.state_images.specs.Ties.{AreTied, IsFree, IsTiedJob, IsTiedRow};

use crate::aligned::aligned_graphs;
use crate::numbering::{graph_is_below, letter_is_below, stack_is_below};
use crate::ties::{is_free, is_tied_job, is_tied_row};
use core_state::{Graph, Job, Letter, Numbers, Row, Stack, State};
use heat_plan::{EngineNo, Token};

// Whether all records are as an image asks.
pub(crate) fn are_tied(s: &State) -> bool
    requires { IsMade s.now.state }
    ensures { IsTrue result ↔ AreTied s.now.state }
{
    stacks_are_below(s.stacks(), s.next())
        && graphs_are_below(aligned_graphs(s), s.next().row.get())
        && rows_are_tied(s, s.rows())
        && letters_are_below(s.letters(), s.next())
        && jobs_are_tied(s, s.jobs())
        && live_are_below(s.live(), s.next().engine.get())
        && released_are_free(s, s.released())
}

fn stacks_are_below(stacks: &[Stack], next: &Numbers) -> bool
    ensures { IsTrue result ↔ All (StackBelow next.now.stack next.now.trav) stacks.now }
{
    for stack in stacks {
        if !stack_is_below(stack, next) {
            return false;
        }
    }
    true
}

fn graphs_are_below(graphs: &[Graph], next: u64) -> bool
    requires { All IsAligned graphs.now }
    ensures { IsTrue result ↔ All (GraphBelow next) graphs.now }
{
    for graph in graphs {
        if !graph_is_below(graph, next) {
            return false;
        }
    }
    true
}

fn rows_are_tied(s: &State, rows: &[Row]) -> bool
    ensures { IsTrue result ↔ All (IsTiedRow s.now.state) rows.now }
{
    for row in rows {
        if !is_tied_row(s, row) {
            return false;
        }
    }
    true
}

fn letters_are_below(letters: &[Letter], next: &Numbers) -> bool
    ensures { IsTrue result ↔ All (LetterBelow next.now.letter next.now.trav) letters.now }
{
    for letter in letters {
        if !letter_is_below(letter, next) {
            return false;
        }
    }
    true
}

fn jobs_are_tied(s: &State, jobs: &[Job]) -> bool
    ensures { IsTrue result ↔ All (IsTiedJob s.now.state) jobs.now }
{
    for job in jobs {
        if !is_tied_job(s, job) {
            return false;
        }
    }
    true
}

fn live_are_below(live: &[EngineNo], next: u64) -> bool
    ensures { IsTrue result ↔ All (λ (e : ℕ). e < next) live.now }
{
    for engine in live {
        if next <= engine.get() {
            return false;
        }
    }
    true
}

fn released_are_free(s: &State, released: &[Token]) -> bool
    ensures { IsTrue result ↔ All (IsFree s.now.state) released.now }
{
    for token in released {
        if !is_free(s, token) {
            return false;
        }
    }
    true
}
