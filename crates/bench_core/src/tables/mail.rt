//! Letters and jobs that come and are found.

use crate::tables::rows::{number, stack, trav};
use anyhow::{Result, bail};
use heat_plan::{EngineNo, LetterNo};
use mail_table::{Job, Letter, MailAnswer, MailOp, MailTable, Stage, run_mails};
use std::alloc::Global;

/// Sends so many letters, and gives as many engines a job.
pub fn put(alloc: Global, count: u32) -> Result<usize> {
    let mut table = MailTable::new(alloc);
    done(alloc, &mut table, &puts(alloc, count)?)
}

/// Sends and gives them, and finds each engine's job and each row's holder.
pub fn found(alloc: Global, count: u32) -> Result<usize> {
    let mut table = MailTable::new(alloc);
    let put = done(alloc, &mut table, &puts(alloc, count)?)?;
    let found = done(alloc, &mut table, &finds(alloc, count)?)?;
    Ok(put.saturating_add(found))
}

fn puts(alloc: Global, count: u32) -> Result<Vec<MailOp>> {
    let mut ops = Vec::new(alloc);
    for place in 0..count {
        ops.push(MailOp::Send(stack(alloc)?, trav()?, place))?;
        ops.push(MailOp::Hold(job(alloc, place)?))?;
    }
    Ok(ops)
}

fn finds(alloc: Global, count: u32) -> Result<Vec<MailOp>> {
    let mut ops = Vec::new(alloc);
    for place in 0..count {
        ops.push(MailOp::JobOf(engine(place)?))?;
        ops.push(MailOp::Holder(stack(alloc)?, number(place)?))?;
    }
    Ok(ops)
}

// Runs the calls; how many were made and told something.
fn done(alloc: Global, table: &mut MailTable, ops: &[MailOp]) -> Result<usize> {
    let answers = run_mails(alloc, table, ops)?;
    let mut told = 0usize;
    for answer in answers.as_slice() {
        if tells(answer) {
            told = told.saturating_add(1);
        }
    }
    Ok(told)
}

fn tells(answer: &MailAnswer) -> bool {
    match answer {
        MailAnswer::Job(job) => job.is_some(),
        MailAnswer::Holder(engine) => engine.is_some(),
        MailAnswer::Taken(letter) => letter.is_some(),
        MailAnswer::Worn | MailAnswer::Barred => false,
        MailAnswer::Sent(_)
        | MailAnswer::Letters(_)
        | MailAnswer::Jobs(_)
        | MailAnswer::NextNo(_)
        | MailAnswer::Done => true,
    }
}

fn job(alloc: Global, place: u32) -> Result<Job> {
    Ok(Job {
        engine: engine(place)?,
        letter: letter(alloc, place)?,
        row: number(place)?,
        stage: Stage::Taken,
    })
}

fn letter(alloc: Global, place: u32) -> Result<Letter> {
    let Some(no) = LetterNo::new(u64::from(place) + 1) else {
        bail!("a number");
    };
    Ok(Letter {
        no,
        stack: stack(alloc)?,
        trav: trav()?,
        node: place,
    })
}

fn engine(place: u32) -> Result<EngineNo> {
    match EngineNo::new(u64::from(place) + 1) {
        Some(no) => Ok(no),
        None => bail!("a number"),
    }
}
