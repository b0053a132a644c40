//! The engine's state: tables, the live engines, the released tokens, and the next numbers.
ghost use Rattle.std.specs.Prelude.{◌≡◌, ◌<◌, ◌≤◌, ◌+◌, [], OnOk, IfOk, filter, length, nat_eq, not, option_map};
ghost use Rattle.row_table.specs.Rows.{row_at};
ghost use Rattle.row_table.specs.Found.{IsCurrentOf};
ghost use Rattle.mail_table.specs.Mails.{letter_at, job_at};
ghost use Rattle.mail_table.specs.Holders.{IsFirst};
ghost use Rattle.core_state.specs.State.{StateData, stack_at, graph_at, past_at};
ghost use Rattle.core_state.specs.Changes.{apply, applied, put_point};

use crate::batch::Batch;
use crate::change::Change;
use crate::graph::Graph;
use crate::numbers::Numbers;
use crate::past::Past;
use crate::point_write::PointWrite;
use crate::ready::Ready;
use crate::stack::Stack;
use heat_plan::{EngineNo, LetterNo, ResName, RowNo, StackName, Token};
use keyed_table::{ListTable, Roomed, Table};
use mail_table::{Job, Letter, MailTable, Mails};
use row_table::{Row, RowTable, Rows};
use std::alloc::{AllocError, Global};
use std::marker::Model;
use sync_points::Point;

/// The stacks with their newest graphs and their pasts, the rows, the waiting letters, the jobs, the live
/// engines by rising number, the tokens that were released, and the next numbers. Stacks, graphs, pasts,
/// rows, letters and jobs are found through indexes.
#[derive(Debug)]
pub struct State {
    stacks: Table<Stack>,
    graphs: Table<Graph>,
    pasts: Table<Past>,
    rows: RowTable,
    mail: MailTable,
    live: ListTable<EngineNo>,
    released: Roomed<Token>,
    next: Numbers,
}

impl Drop for State {
    fn drop(self) {
        let State {
            stacks: _,
            graphs: _,
            pasts: _,
            rows: _,
            mail: _,
            live: _,
            released: _,
            next: _,
        } = self;
    }
}

impl Model for State {
    ghost use Rattle.std.specs.Prelude.{◌≡◌, min};
    ghost use Rattle.std.specs.Coded.{codes};
    ghost use Rattle.heat_value.specs.Code.{data_code, members_code};
    ghost use Rattle.core_state.specs.State.{Held};

    ghost Value = { Held };

    ghost coded = { Prim.hlevel (codes, data_code, members_code) };

    ghost view = { λ s. record {
      state = record {
        stacks = s.stacks.items;
        graphs = s.graphs.items;
        pasts = s.pasts.items;
        rows = s.rows.items;
        letters = s.mail.mail.letters;
        jobs = s.mail.mail.jobs;
        live = s.live.items;
        released = s.released.items;
        next = s.next;
      };
      spare = min s.stacks.spare (min s.graphs.spare (min s.pasts.spare (min s.rows.spare
          (min s.mail.letter_room (min s.mail.job_room (min s.live.spare s.released.spare))))));
    } };

    ghost invariant = { λ s. s.mail.mail.next ≡ s.next.letter };
}

impl State {
    /// No stack, and nothing was drawn.
    pub fn new(alloc: Global) -> State
        ensures { result.state ≡ record {
          stacks = [];
          graphs = [];
          pasts = [];
          rows = [];
          letters = [];
          jobs = [];
          live = [];
          released = [];
          next = record { stack = 1; trav = 1; row = 1; engine = 1; letter = 1 };
        } }
    {
        State {
            stacks: Table::new(alloc),
            graphs: Table::new(alloc),
            pasts: Table::new(alloc),
            rows: RowTable::new(alloc),
            mail: MailTable::new(alloc),
            live: ListTable::new(alloc),
            released: Roomed::new(alloc),
            next: Numbers::first(),
        }
    }

    /// The stacks.
    pub fn stacks(&self) -> &[Stack]
        ensures { result.now ≡ self.now.state.stacks }
    {
        self.stacks.as_slice()
    }

    /// The stacks' newest graphs.
    pub fn graphs(&self) -> &[Graph]
        ensures { result.now ≡ self.now.state.graphs }
    {
        self.graphs.as_slice()
    }

    /// What stacks could go back to.
    pub fn pasts(&self) -> &[Past]
        ensures { result.now ≡ self.now.state.pasts }
    {
        self.pasts.as_slice()
    }

    /// The rows.
    pub fn rows(&self) -> &[Row]
        ensures { result.now ≡ self.now.state.rows }
    {
        self.rows.rows()
    }

    /// The waiting letters.
    pub fn letters(&self) -> &[Letter]
        ensures { result.now ≡ self.now.state.letters }
    {
        self.mail.letters()
    }

    /// The jobs.
    pub fn jobs(&self) -> &[Job]
        ensures { result.now ≡ self.now.state.jobs }
    {
        self.mail.jobs()
    }

    /// The live engines, by rising number.
    pub fn live(&self) -> &[EngineNo]
        ensures { result.now ≡ self.now.state.live }
    {
        self.live.as_slice()
    }

    /// The tokens that were released.
    pub fn released(&self) -> &[Token]
        ensures { result.now ≡ self.now.state.released }
    {
        self.released.as_slice()
    }

    /// The next number of each sort.
    pub fn next(&self) -> &Numbers
        ensures { result.now ≡ self.now.state.next }
    {
        &self.next
    }

    /// The stack of this name; none where it isn't in the table.
    pub fn stack(&self, name: &StackName) -> Option<&Stack>
        ensures { option_map (λ s. s.now) result ≡ stack_at self.now.state.stacks name.now }
    {
        self.stacks.get(name)
    }

    /// The newest graph of a stack; none where none was put.
    pub fn graph(&self, stack: &StackName) -> Option<&Graph>
        ensures { option_map (λ g. g.now) result ≡ graph_at self.now.state.graphs stack.now }
    {
        self.graphs.get(stack)
    }

    /// What a stack could go back to; none where nothing was put.
    pub fn past(&self, stack: &StackName) -> Option<&Past>
        ensures { option_map (λ p. p.now) result ≡ past_at self.now.state.pasts stack.now }
    {
        self.pasts.get(stack)
    }

    /// The row of this number; none where it doesn't stand.
    pub fn row(&self, no: &RowNo) -> Option<&Row>
        ensures { option_map (λ r. r.now) result ≡ row_at self.now.state.rows no.now }
    {
        self.rows.get(*no)
    }

    /// The number of the name's current row, of several the greatest; none where no row is current.
    pub fn current(&self, stack: &StackName, name: &ResName) -> Option<RowNo>
        ensures { IsCurrentOf self.now.state.rows stack.now name.now result }
    {
        self.rows.current(stack, name)
    }

    /// The waiting letter of this number; none where it doesn't wait.
    pub fn letter(&self, no: &LetterNo) -> Option<&Letter>
        ensures { option_map (λ l. l.now) result ≡ letter_at self.now.state.letters no.now }
    {
        self.mail.letter(*no)
    }

    /// The waiting letter of the lowest number; none where no letter waits.
    pub fn first_letter(&self) -> Option<&Letter>
        ensures { IsFirst self.now.state.letters (option_map (λ l. l.now) result) }
    {
        self.mail.first()
    }

    /// An engine's job; none where it has none.
    pub fn job(&self, engine: &EngineNo) -> Option<&Job>
        ensures { option_map (λ j. j.now) result ≡ job_at self.now.state.jobs engine.now }
    {
        self.mail.job_of(*engine)
    }

    /// The same state, with room of its own.
    pub fn copy(&self) -> Result<State, AllocError>
        ensures { IfOk result (λ copy. copy.state ≡ self.now.state) }
    {
        let (stacks, graphs, pasts) = self.stack_tables()?;
        let (rows, mail) = self.row_tables()?;
        let (live, released) = self.lists()?;
        Ok(State {
            stacks,
            graphs,
            pasts,
            rows,
            mail,
            live,
            released,
            next: self.next,
        })
    }

    // Copies of the stacks, their graphs and their pasts.
    fn stack_tables(&self) -> Result<(Table<Stack>, Table<Graph>, Table<Past>), AllocError>
        ensures stacks { IfOk result (λ t. t.0.items ≡ self.now.state.stacks) }
        ensures graphs { IfOk result (λ t. t.1.items ≡ self.now.state.graphs) }
        ensures pasts { IfOk result (λ t. t.2.items ≡ self.now.state.pasts) }
    {
        Ok((self.stacks.copy()?, self.graphs.copy()?, self.pasts.copy()?))
    }

    // Copies of the rows, and of the letters and jobs.
    fn row_tables(&self) -> Result<(RowTable, MailTable), AllocError>
        ensures rows { IfOk result (λ t. t.0.items ≡ self.now.state.rows) }
        ensures letters { IfOk result (λ t. t.1.mail.letters ≡ self.now.state.letters) }
        ensures jobs { IfOk result (λ t. t.1.mail.jobs ≡ self.now.state.jobs) }
        ensures next { IfOk result (λ t. t.1.mail.next ≡ self.now.state.next.letter) }
    {
        Ok((self.rows.copy()?, self.mail.copy()?))
    }

    // Copies of the live engines and of the tokens that were released.
    fn lists(&self) -> Result<(ListTable<EngineNo>, Roomed<Token>), AllocError>
        ensures live { IfOk result (λ t. t.0.items ≡ self.now.state.live) }
        ensures released { IfOk result (λ t. t.1.items ≡ self.now.state.released) }
    {
        Ok((self.live.copied()?, self.released.copy()?))
    }

    /// Makes room for so many more records in each table.
    pub fn reserve(&mut self, more: usize) -> Result<(), AllocError>
        ensures same { self.new.state ≡ self.old.state }
        ensures room { OnOk result (more ≤ self.new.spare) }
        ensures keeps { self.old.spare ≤ self.new.spare }
    {
        self.stacks.reserve(more)?;
        self.graphs.reserve(more)?;
        self.pasts.reserve(more)?;
        self.rows.reserve(more)?;
        self.mail.reserve(more, more)?;
        self.live.reserve(more)?;
        self.released.reserve(more)
    }

    /// Makes one change, within the room, be it one that applies or not.
    pub fn make(&mut self, ready: Ready)
        requires { 0 < self.old.spare }
        ensures exact { self.new.state ≡ apply ready self.old.state }
        ensures room { self.old.spare ≤ self.new.spare + 1 }
    {
        let (change, points) = ready.into_parts();
        match change {
            Change::PutStack(stack) => self.stacks.put(stack),
            Change::DropStack(name) => {
                self.stacks.cut(&name);
                self.graphs.cut(&name);
                self.pasts.cut(&name);
            }
            Change::PutRow(row) => self.rows.put_row(row),
            Change::DropRow(no) => self.rows.purge(no),
            Change::PutGraph(stack, graph) => self.graphs.put(Graph {
                stack,
                graph,
                points,
            }),
            Change::PutPoint(point) => put_point(&mut self.graphs, point),
            Change::Send(letter) => self.mail.put_letter(letter),
            Change::Drop(no) => self.mail.remove(no),
            Change::PutJob(job) => self.mail.put_job(job),
            Change::EndJob(engine) => self.mail.end(engine),
            Change::Enlist(engine) => self.live.push(engine),
            Change::Stop(engine) => stop(&mut self.live, engine),
            Change::Numbers(numbers) => {
                self.mail.set_next(numbers.letter.get());
                self.next = numbers;
            }
            Change::PutPast(past) => self.pasts.put(past),
            Change::Release(token) => self.released.push(token),
        }
    }

    /// Makes all changes in order, within the room.
    pub fn apply_all(&mut self, changes: Batch<Ready>)
        requires { length changes ≤ self.old.spare }
        ensures exact { self.new.state ≡ applied changes self.old.state }
        ensures room { self.old.spare ≤ self.new.spare + length changes }
    {
        for change in changes.into_vec() {
            self.make(change);
        }
    }
}

// Takes an engine from the live ones.
#[tactic(auto, unfolding(heat_plan::specs::Tables::cut))]
fn stop(live: &mut ListTable<EngineNo>, engine: EngineNo)
    ensures items { live.new.items ≡ filter (λ x. not (nat_eq x engine)) live.old.items }
    ensures room { live.old.spare ≤ live.new.spare }
{
    live.cut(&engine);
}

// Writes a node's point into its stack's graph.
fn put_point(graphs: &mut Table<Graph>, point: Point)
    ensures items { graphs.new.items ≡ put_point point graphs.old.items }
    ensures room { graphs.old.spare ≤ graphs.new.spare }
{
    if let Some(place) = graphs.find(&point.stack) {
        graphs.rewrite(place, PointWrite { point });
    }
}
