//! Jobs, each found by its engine and by its row and stack.
ghost use Rattle.std.specs.Prelude.{◌≡◌, ◌<◌, ◌≤◌, ◌+◌, ◌++◌, ◌∷◌, []};
ghost use Rattle.std.specs.Prelude.{false, Some, IsOk, IfOk, OnOk, All, nat_eq, option_map};
ghost use Rattle.std.specs.Prelude.{length, remove, slice_get, slice_set};
ghost use Rattle.mail_table.specs.declared.mail.Job.{Job};
ghost use Rattle.mail_table.specs.Mails.{job_at, job_key, put_job, cut_job};
ghost use Rattle.mail_table.specs.Holders.{IsHolder};

use crate::Job;
use crate::by_row::{cmp_row, enter, leave, start_of_row};
use heat_plan::{EngineNo, RowNo, StackName};
use keyed_table::{Keyed, Roomed, Table, close_up};
use std::alloc::{AllocError, Global};
use std::marker::Model;

/// Jobs in the order in which their engines came, and their places, sorted by row, stack and engine.
#[derive(Debug)]
pub(crate) struct JobTable {
    jobs: Table<Job>,
    by_row: Roomed<usize>,
}

impl Drop for JobTable {
    fn drop(self) {
        let JobTable { jobs: _, by_row: _ } = self;
    }
}

impl Model for JobTable {
    ghost use Rattle.std.specs.Prelude.{min, map};
    ghost use Rattle.keyed_table.specs.Rooms.{Roomy};
    ghost use Rattle.keyed_table.specs.Orders.{IsOrder};
    ghost use Rattle.mail_table.specs.declared.mail.Job.{Job};

    ghost Value = { Roomy Job };

    ghost view = { λ t. record { items = t.jobs.items; spare = min t.jobs.spare t.by_row.spare } };

    ghost use Rattle.mail_table.specs.ByRow.{row_key, row_below};

    ghost invariant = { λ t. IsOrder row_below (map row_key t.jobs.items) t.by_row.items };
}

impl JobTable {
    /// No job, and no room.
    pub(crate) fn new(alloc: Global) -> JobTable
        ensures { result.items ≡ [] }
    {
        JobTable {
            jobs: Table::new(alloc),
            by_row: Roomed::new(alloc),
        }
    }

    /// The same jobs, with room of its own.
    pub(crate) fn copy(&self) -> Result<JobTable, AllocError>
        ensures { IfOk result (λ copy. copy.items ≡ self.now.items) }
    {
        Ok(JobTable {
            jobs: self.jobs.copy()?,
            by_row: self.by_row.copied()?,
        })
    }

    /// All jobs.
    pub(crate) fn as_slice(&self) -> &[Job]
        ensures { result.now ≡ self.now.items }
    {
        self.jobs.as_slice()
    }

    /// Makes room for so many more.
    pub(crate) fn reserve(&mut self, more: usize) -> Result<(), AllocError>
        ensures same { self.new.items ≡ self.old.items }
        ensures room { OnOk result (more ≤ self.new.spare) }
        ensures keeps { self.old.spare ≤ self.new.spare }
        ensures enough { more ≤ self.old.spare → IsOk result }
    {
        self.jobs.reserve(more)?;
        self.by_row.reserve(more)
    }

    /// The engine's job.
    pub(crate) fn get(&self, engine: EngineNo) -> Option<&Job>
        ensures { option_map (λ j. j.now) result ≡ job_at self.now.items engine }
    {
        self.jobs.get(&engine)
    }

    /// The engine whose job is at the row, of several the lowest: its entry is the first that isn't
    /// before the row and the stack.
    pub(crate) fn holder(&self, stack: &StackName, row: RowNo) -> Option<EngineNo>
        ensures { IsHolder self.now.items stack.now row result }
    {
        let jobs = self.jobs.as_slice();
        let at = start_of_row(&self.by_row, jobs, row, stack, 0);
        let entries = self.by_row.as_slice();
        if entries.len() <= at {
            return None;
        }
        let job = &jobs[entries[at]];
        if cmp_row(job, row, stack).is_eq() {
            return Some(job.engine);
        }
        None
    }

    /// Writes a job over its engine's, or behind all others, within the room.
    pub(crate) fn put(&mut self, job: Job)
        requires { 0 < self.old.spare }
        ensures items { self.new.items ≡ put_job job self.old.items }
        ensures room { self.old.spare ≤ self.new.spare + 1 }
    {
        match self.jobs.find(job.key()) {
            Some(place) => self.write(place, job),
            None => self.push(job),
        }
    }

    // Writes a job over its engine's at this place: its entry goes to where the new row has it.
    fn write(&mut self, place: usize, job: Job)
        requires within { place < length self.old.items }
        requires same_key { option_map job_key (slice_get self.old.items place) ≡ Some job.engine }
        ensures items { self.new.items ≡ slice_set self.old.items place job }
        ensures room { self.old.spare ≤ self.new.spare }
    {
        leave(&mut self.by_row, self.jobs.as_slice(), place);
        self.jobs.set(place, job);
        enter(&mut self.by_row, self.jobs.as_slice(), place);
    }

    // Puts a new engine's job behind all others, within the room.
    fn push(&mut self, job: Job)
        requires room { 0 < self.old.spare }
        requires new_key { All (λ (x : Job). nat_eq x.engine job.engine ≡ false) self.old.items }
        ensures items { self.new.items ≡ self.old.items ++ job ∷ [] }
        ensures room { self.old.spare ≤ self.new.spare + 1 }
    {
        let place = self.jobs.as_slice().len();
        self.jobs.push(job);
        enter(&mut self.by_row, self.jobs.as_slice(), place);
    }

    /// Drops the engine's job.
    pub(crate) fn cut(&mut self, engine: EngineNo)
        ensures items { self.new.items ≡ cut_job engine self.old.items }
        ensures room { self.old.spare ≤ self.new.spare }
    {
        if let Some(place) = self.jobs.find(&engine) {
            self.remove(place);
        }
    }

    // Drops the job at this place.
    fn remove(&mut self, place: usize)
        requires { place < length self.old.items }
        ensures rest { self.new.items ≡ remove self.old.items place }
        ensures room { self.old.spare ≤ self.new.spare }
    {
        leave(&mut self.by_row, self.jobs.as_slice(), place);
        let _ = self.jobs.remove(place);
        close_up(&mut self.by_row, place, self.jobs.as_slice().len());
    }
}
