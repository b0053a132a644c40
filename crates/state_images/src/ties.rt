//! Whether each record of a state fits what it names: rows their chains, jobs and targets, jobs their rows,
//! and released tokens no row.
ghost use Rattle.std.specs.Prelude.{◌≡◌, ◌↔◌, IsTrue};
ghost use Rattle.step_relation.specs.Linked.{IsReplacedBy};
ghost use Rattle.step_relation.specs.Rows.{token_of};
ghost use Rattle.state_images.specs.Ties.{HasTarget, Holds, IsChained, IsFree, IsHeld, IsTiedJob, IsTiedRow};
ghost use Rattle.state_images.specs.Ties.{LeadsBack, LeadsOn};

use crate::numbering::{job_is_below, row_is_below};
use core_state::{Job, Row, State};
use heat_plan::{Act, Equals, Status, Token};

// Whether a row has its stack, numbers that were drawn, its chain, its engine's job and its target.
pub(crate) fn is_tied_row(s: &State, row: &Row) -> bool
    ensures { IsTrue result ↔ IsTiedRow s.now.state row.now }
{
    s.stack(&row.stack).is_some()
        && row_is_below(row, s.next())
        && is_chained(s, row)
        && is_held(s, row)
        && has_target(row)
}

// Whether the rows before and behind it tell of it.
fn is_chained(s: &State, row: &Row) -> bool
    ensures { IsTrue result ↔ IsChained s.now.state.rows row.now }
{
    leads_on(s, row) && leads_back(s, row)
}

// Whether the row that replaced it has a greater number and tells of it, where it stands.
fn leads_on(s: &State, row: &Row) -> bool
    ensures { IsTrue result ↔ LeadsOn s.now.state.rows row.now }
{
    let Some(next) = row.replaced_by else {
        return true;
    };
    if next.get() <= row.no.get() {
        return false;
    }
    match s.row(&next) {
        Some(later) => is_replaced_by(row, later),
        None => true,
    }
}

// Whether the row that it replaced tells of it, where that stands.
fn leads_back(s: &State, row: &Row) -> bool
    ensures { IsTrue result ↔ LeadsBack s.now.state.rows row.now }
{
    let Some(before) = row.replaces else {
        return true;
    };
    match s.row(&before) {
        Some(earlier) => is_replaced_by(earlier, row),
        None => true,
    }
}

fn is_replaced_by(row: &Row, later: &Row) -> bool
    ensures { IsTrue result ↔ IsReplacedBy row.now later.now }
{
    row.replaced_by == Some(later.no)
        && later.replaces == Some(row.no)
        && later.stack.equals(&row.stack)
        && later.name.equals(&row.name)
}

// Whether the job of the row's engine is at it.
fn is_held(s: &State, row: &Row) -> bool
    ensures { IsTrue result ↔ IsHeld s.now.state.jobs row.now }
{
    let Some(engine) = row.engine else {
        return true;
    };
    match s.job(&engine) {
        Some(job) => job.row == row.no,
        None => false,
    }
}

fn has_target(row: &Row) -> bool
    ensures { IsTrue result ↔ HasTarget row.now }
{
    row.act != Act::Update || row.status != Status::InProgress || row.target.is_some()
}

// Whether a job has numbers that were drawn, and its row, where that stands, is its engine's.
pub(crate) fn is_tied_job(s: &State, job: &Job) -> bool
    ensures { IsTrue result ↔ IsTiedJob s.now.state job.now }
{
    job_is_below(job, s.next()) && holds(s, job)
}

fn holds(s: &State, job: &Job) -> bool
    ensures { IsTrue result ↔ Holds s.now.state.rows job.now }
{
    match s.row(&job.row) {
        Some(row) => row.engine == Some(job.engine),
        None => true,
    }
}

// Whether a released token has a number that was drawn, and is no row's.
pub(crate) fn is_free(s: &State, token: &Token) -> bool
    ensures { IsTrue result ↔ IsFree s.now.state token.now }
{
    if s.next().row.get() <= token.row.get() {
        return false;
    }
    match s.row(&token.row) {
        Some(row) => !is_its(row, token),
        None => true,
    }
}

// Whether the token is the row's.
fn is_its(row: &Row, token: &Token) -> bool
    ensures { IsTrue result ↔ (token_of row.now ≡ token.now) }
{
    row.stack.equals(&token.stack) && row.name.equals(&token.name) && row.no == token.row
}
