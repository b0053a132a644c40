//! The index by which jobs are found by row and stack: their places, sorted by row, stack and engine.
ghost use Rattle.std.specs.Prelude.{◌≡◌, ◌<◌, ◌≤◌, ◌+◌, ℕ, length, map};
ghost use Rattle.std.specs.Ordering.{nat_cmp};
ghost use Rattle.keyed_table.specs.Orders.{AreApart, IsOrder, IsOrderBut, IsStart, passes_at};
ghost use Rattle.mail_table.specs.declared.mail.Job.{Job};
ghost use Rattle.mail_table.specs.Mails.{job_key};
ghost use Rattle.mail_table.specs.ByRow.{row_of, row_key, row_cmp, row_below};

use crate::Job;
use heat_plan::{RowNo, StackName};
use keyed_table::Roomed;
use std::cmp::Ordering;

/// How the job's row and stack compare with these.
pub(crate) fn cmp_row(job: &Job, row: RowNo, stack: &StackName) -> Ordering
    ensures { result ≡ row_cmp (row_of job.now) (row, stack.now) }
{
    match job.row.cmp(&row) {
        Ordering::Equal => job.letter.stack.cmp(stack),
        order => order,
    }
}

// Whether the job comes before this row, stack and engine.
fn precedes(job: &Job, row: RowNo, stack: &StackName, engine: u64) -> bool
    ensures { result ≡ row_below (row_key job.now) ((row, stack.now), engine) }
{
    match cmp_row(job, row, stack) {
        Ordering::Equal => job.engine.get() < engine,
        order => order.is_lt(),
    }
}

/// How many entries lead to jobs before this row, stack and engine.
pub(crate) fn start_of_row(
    places: &Roomed<usize>,
    jobs: &[Job],
    row: RowNo,
    stack: &StackName,
    engine: u64,
) -> usize
    requires { (out : ℕ) × IsOrderBut row_below out (map row_key jobs.now) places.now.items }
    ensures { IsStart (λ k. row_below k ((row, stack.now), engine)) (map row_key jobs.now) places.now.items result }
{
    places.as_slice().partition_point(
        |place: &usize| -> bool
            ensures { result ≡ passes_at (λ (j : Job). row_below (row_key j) ((row, stack.entry.now), engine))
                jobs.entry.now place.now }
        {
            match jobs.get(*place) {
                Some(job) => precedes(job, row, stack, engine),
                None => false,
            }
        },
    )
}

/// Enters the one place that isn't there yet.
pub(crate) fn enter(places: &mut Roomed<usize>, jobs: &[Job], place: usize)
    requires within { place < length jobs.now }
    requires apart { AreApart (map job_key jobs.now) }
    requires others { IsOrderBut row_below place (map row_key jobs.now) places.old.items }
    requires room { 0 < places.old.spare }
    ensures whole { IsOrder row_below (map row_key jobs.now) places.new.items }
    ensures room { places.old.spare ≤ places.new.spare + 1 }
{
    let job = &jobs[place];
    let at = start_of_row(places, jobs, job.row, &job.letter.stack, job.engine.get());
    places.insert(at, place);
}

/// Takes a place out.
pub(crate) fn leave(places: &mut Roomed<usize>, jobs: &[Job], place: usize)
    requires within { place < length jobs.now }
    requires whole { IsOrder row_below (map row_key jobs.now) places.old.items }
    ensures others { IsOrderBut row_below place (map row_key jobs.now) places.new.items }
    ensures room { places.old.spare + 1 ≤ places.new.spare }
{
    let job = &jobs[place];
    let at = start_of_row(places, jobs, job.row, &job.letter.stack, job.engine.get());
    let _ = places.remove(at);
}
