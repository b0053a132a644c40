//! What a state holds, each thing with the change that brings it there: that change is written by the thing alone.
ghost use Rattle.std.specs.Prelude.{◌≡◌};
ghost use Rattle.core_state.specs.declared.change.Change.{Change};
ghost use Rattle.core_state.specs.declared.change.Change.TheVariants.{PutGraph};
ghost use Rattle.plan_codec.specs.Sheets.{behind};
ghost use Rattle.row_codec.specs.Changes.{spelled_change, IsProper, IsStorable};

use crate::graphs::put_graph;
use crate::jobs::put_job;
use crate::letters::put_letter;
use crate::numbers::put_numbers;
use crate::pasts::put_past;
use crate::points::put_point;
use crate::row_puts::put_row;
use crate::stacks::put_stack;
use crate::tokens::put_token;
use core_state::{Graph, Numbers, Past, Stack};
use mail_table::{Job, Letter};
use plan_codec::{EngineNo, Sheet, StackName, Token, Writable};
use row_table::Row;
use sync_points::Point;
use traversal_graph::TravGraph;

/// A thing that a state holds. One change brings it there.
pub trait Brought {
    ghost bringing: { Self → Change };

    /// Puts the change that brings it, of which nothing is made.
    fn put_bringing(&self, sheet: &mut Sheet)
        ensures bytes { sheet.new ≡ behind sheet.old (spelled_change (bringing self.now)) }
        ensures proper { IsStorable (bringing self.now) → IsProper (bringing self.now) };
}

impl Brought for Stack {
    ghost use Rattle.core_state.specs.declared.change.Change.TheVariants.{PutStack};

    ghost bringing = { PutStack };

    #[tactic(auto, using(crate::proofs::Puts::puts))]
    fn put_bringing(&self, sheet: &mut Sheet) {
        sheet.put(1);
        put_stack(self, sheet);
    }
}

impl Brought for Row {
    ghost use Rattle.core_state.specs.declared.change.Change.TheVariants.{PutRow};

    ghost bringing = { PutRow };

    #[tactic(auto, using(crate::proofs::Puts::puts))]
    fn put_bringing(&self, sheet: &mut Sheet) {
        sheet.put(3);
        put_row(self, sheet);
    }
}

// The graph alone: its points are brought by changes of their own.
impl Brought for Graph {
    ghost use Rattle.core_state.specs.declared.change.Change.TheVariants.{PutGraph};

    ghost bringing = { λ g. PutGraph g.stack g.graph };

    fn put_bringing(&self, sheet: &mut Sheet) {
        put_stack_graph(&self.stack, &self.graph, sheet);
    }
}

/// Puts the change that brings a stack's graph.
#[tactic(auto, using(crate::proofs::Puts::puts))]
pub(crate) fn put_stack_graph(stack: &StackName, graph: &TravGraph, sheet: &mut Sheet)
    ensures bytes { sheet.new ≡ behind sheet.old (spelled_change (PutGraph stack.now graph.now)) }
    ensures proper { IsProper (PutGraph stack.now graph.now) }
{
    sheet.put(5);
    stack.put(sheet);
    put_graph(graph, sheet);
}

impl Brought for Point {
    ghost use Rattle.core_state.specs.declared.change.Change.TheVariants.{PutPoint};

    ghost bringing = { PutPoint };

    #[tactic(auto, using(crate::proofs::Puts::puts))]
    fn put_bringing(&self, sheet: &mut Sheet) {
        sheet.put(6);
        put_point(self, sheet);
    }
}

impl Brought for Letter {
    ghost use Rattle.core_state.specs.declared.change.Change.TheVariants.{Send};

    ghost bringing = { Send };

    #[tactic(auto, using(crate::proofs::Puts::puts))]
    fn put_bringing(&self, sheet: &mut Sheet) {
        sheet.put(7);
        put_letter(self, sheet);
    }
}

impl Brought for Job {
    ghost use Rattle.core_state.specs.declared.change.Change.TheVariants.{PutJob};

    ghost bringing = { PutJob };

    #[tactic(auto, using(crate::proofs::Puts::puts))]
    fn put_bringing(&self, sheet: &mut Sheet) {
        sheet.put(9);
        put_job(self, sheet);
    }
}

impl Brought for EngineNo {
    ghost use Rattle.core_state.specs.declared.change.Change.TheVariants.{Enlist};

    ghost bringing = { Enlist };

    #[tactic(auto, using(crate::proofs::Puts::puts))]
    fn put_bringing(&self, sheet: &mut Sheet) {
        sheet.put(11);
        self.put(sheet);
    }
}

impl Brought for Numbers {
    ghost use Rattle.core_state.specs.declared.change.Change.TheVariants.{Numbers as BringsNumbers};

    ghost bringing = { BringsNumbers };

    #[tactic(auto, using(crate::proofs::Puts::puts))]
    fn put_bringing(&self, sheet: &mut Sheet) {
        sheet.put(13);
        put_numbers(self, sheet);
    }
}

impl Brought for Past {
    ghost use Rattle.core_state.specs.declared.change.Change.TheVariants.{PutPast};

    ghost bringing = { PutPast };

    #[tactic(auto, using(crate::proofs::Puts::puts))]
    fn put_bringing(&self, sheet: &mut Sheet) {
        sheet.put(14);
        put_past(self, sheet);
    }
}

impl Brought for Token {
    ghost use Rattle.core_state.specs.declared.change.Change.TheVariants.{Release};

    ghost bringing = { Release };

    #[tactic(auto, using(crate::proofs::Puts::puts))]
    fn put_bringing(&self, sheet: &mut Sheet) {
        sheet.put(15);
        put_token(self, sheet);
    }
}
