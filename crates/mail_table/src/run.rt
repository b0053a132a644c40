//! Runs of calls over the mail.
ghost use Rattle.std.specs.Prelude.{◌≡◌, IfOk};
ghost use Rattle.mail_table.specs.Mails.{job_at};
ghost use Rattle.mail_table.specs.declared.ops.MailAnswer.TheVariants as gives;
ghost use Rattle.mail_table.specs.Mail.{with_job, with_letter, without_job, without_letter};
ghost use Rattle.mail_table.specs.Runs.{Does, Runs, Sends, SetsNext, TakesFirst};

use crate::mails::Mails;
use crate::ops::{MailAnswer, MailOp};
use crate::{Job, Letter};
use heat_plan::{EngineNo, LetterNo, Refusal, Seq, StackName, TravNo, TryCopy, WORN};
use std::alloc::{AllocError, Global};

/// Makes the calls in order, each where its condition holds, and answers what each gives.
pub fn run_mails<R: Mails>(
    alloc: Global,
    mails: &mut R,
    ops: &[MailOp],
) -> Result<Seq<MailAnswer>, AllocError>
    ensures { IfOk result (λ answers. Runs ops.now (R.content mails.old).mail answers (R.content mails.new).mail) }
{
    let mut answers = Seq::new(alloc);
    for op in ops {
        let answer = answer_of(alloc, mails, op)?;
        answers.push(answer)?;
    }
    Ok(answers)
}

// Makes one call.
fn answer_of<R: Mails>(alloc: Global, mails: &mut R, op: &MailOp) -> Result<MailAnswer, AllocError>
    ensures { IfOk result (λ answer. Does op.now (R.content mails.old).mail answer (R.content mails.new).mail) }
{
    match op {
        MailOp::Send(stack, trav, node) => Ok(send(mails, stack.copy()?, *trav, *node)?),
        MailOp::TakeFirst => Ok(MailAnswer::Taken(mails.take_first())),
        MailOp::Hold(job) => Ok(hold(mails, job.copy()?)?),
        MailOp::End(engine) => Ok(end(mails, *engine)),
        MailOp::JobOf(engine) => job_of(mails, *engine),
        MailOp::Holder(stack, row) => Ok(MailAnswer::Holder(mails.holder(stack, *row))),
        MailOp::Reserve(letters, jobs) => Ok(reserve(mails, *letters, *jobs)?),
        MailOp::Letters => Ok(MailAnswer::Letters(copy_of(alloc, mails.letters())?)),
        MailOp::Jobs => Ok(MailAnswer::Jobs(copy_of(alloc, mails.jobs())?)),
        MailOp::NextNo => Ok(MailAnswer::NextNo(mails.next_no())),
        MailOp::Insert(letter) => Ok(insert(mails, letter.copy()?)?),
        MailOp::Remove(no) => Ok(remove(mails, *no)),
        MailOp::SetNext(next) => Ok(set_next(mails, *next)),
    }
}

// Sends a letter, if the next number isn't worn out.
fn send<R: Mails>(
    mails: &mut R,
    stack: StackName,
    trav: TravNo,
    node: u32,
) -> Result<MailAnswer, AllocError>
    ensures { IfOk result (λ answer.
        Sends stack trav node (R.content mails.old).mail answer (R.content mails.new).mail) }
{
    match mails.send(stack, trav, node) {
        Ok(no) => Ok(MailAnswer::Sent(no)),
        Err(Refusal::Worn) => Ok(MailAnswer::Worn),
        Err(_) => Err(AllocError),
    }
}

// Holds a job.
fn hold<R: Mails>(mails: &mut R, job: Job) -> Result<MailAnswer, AllocError>
    ensures { IfOk result (λ answer. (answer ≡ gives.Done)
        × ((R.content mails.new).mail ≡ with_job job (R.content mails.old).mail)) }
{
    mails.hold(job)?;
    Ok(MailAnswer::Done)
}

// Ends an engine's job.
fn end<R: Mails>(mails: &mut R, engine: EngineNo) -> MailAnswer
    ensures told { result ≡ gives.Done }
    ensures mail { (R.content mails.new).mail ≡ without_job engine (R.content mails.old).mail }
{
    mails.end(engine);
    MailAnswer::Done
}

// An engine's job, copied.
fn job_of<R: Mails>(mails: &R, engine: EngineNo) -> Result<MailAnswer, AllocError>
    ensures { IfOk result (λ answer. answer ≡ gives.Job (job_at (R.content mails.now).mail.jobs engine)) }
{
    match mails.job_of(engine) {
        Some(job) => Ok(MailAnswer::Job(Some(job.copy()?))),
        None => Ok(MailAnswer::Job(None)),
    }
}

// Makes room.
fn reserve<R: Mails>(mails: &mut R, letters: usize, jobs: usize) -> Result<MailAnswer, AllocError>
    ensures { IfOk result (λ answer. (answer ≡ gives.Done)
        × ((R.content mails.new).mail ≡ (R.content mails.old).mail)) }
{
    mails.reserve(letters, jobs)?;
    Ok(MailAnswer::Done)
}

// The same letters, or the same jobs.
fn copy_of<T: TryCopy + Drop>(alloc: Global, items: &[T]) -> Result<Seq<T>, AllocError>
    ensures { IfOk result (λ copy. copy ≡ items.now) }
{
    let mut copy = Vec::with_capacity(alloc, items.len())?;
    for item in items {
        copy.push(item.copy()?)?;
    }
    Ok(Seq::from_vec(copy))
}

// Writes a letter.
fn insert<R: Mails>(mails: &mut R, letter: Letter) -> Result<MailAnswer, AllocError>
    ensures { IfOk result (λ answer. (answer ≡ gives.Done)
        × ((R.content mails.new).mail ≡ with_letter letter (R.content mails.old).mail)) }
{
    mails.insert(letter)?;
    Ok(MailAnswer::Done)
}

// Drops a letter.
fn remove<R: Mails>(mails: &mut R, no: LetterNo) -> MailAnswer
    ensures told { result ≡ gives.Done }
    ensures mail { (R.content mails.new).mail ≡ without_letter no (R.content mails.old).mail }
{
    mails.remove(no);
    MailAnswer::Done
}

// Sets the next letter's number, if it is one.
fn set_next<R: Mails>(mails: &mut R, next: u64) -> MailAnswer
    ensures { SetsNext next (R.content mails.old).mail result (R.content mails.new).mail }
{
    if next == 0 || WORN < next {
        return MailAnswer::Barred;
    }
    mails.set_next(next);
    MailAnswer::Done
}
