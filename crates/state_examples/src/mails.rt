//! Forty calls of the mail, in both of its forms: what they answer.
use crate::parts::{add, engine_no, letter_no, row_no, same, stack_name, trav_no};
use heat_plan::WORN;
use mail_table::{Job, Letter, ListMails, MailAnswer, MailOp, MailTable, Mails, Stage, run_mails};
use std::alloc::{AllocError, Global};

// A call, with numbers of letters and engines, and with stacks by their letters. A job is of an engine, at a
// row of a stack; who holds a row is asked of the row and its stack.
#[derive(Clone, Copy)]
enum Call {
    Send(u8),
    Insert(u64, u8),
    Remove(u64),
    TakeFirst,
    Letters,
    NextNo,
    SetNext(u64),
    Reserve(usize, usize),
    Hold(u64, u64, u8),
    Holder(u64, u8),
    JobOf(u64),
    End(u64),
    Jobs,
}

const CALLS: [Call; 40] = [
    // Letters come, not in order, and the first ones are taken; numbers wear out.
    Call::TakeFirst,
    Call::NextNo,
    Call::Reserve(3, 2),
    Call::SetNext(5),
    Call::Send(b's'),
    Call::Insert(3, b't'),
    Call::Insert(4, b't'),
    Call::Insert(3, b's'),
    Call::NextNo,
    Call::Letters,
    Call::TakeFirst,
    Call::Letters,
    Call::Remove(4),
    Call::Remove(4),
    Call::TakeFirst,
    Call::TakeFirst,
    Call::SetNext(0),
    Call::SetNext(WORN),
    Call::Send(b's'),
    Call::NextNo,
    // Engines get jobs, two of them at one row, and other ones; a row of the number is another stack's.
    Call::Hold(7, 1, b's'),
    Call::Hold(4, 1, b's'),
    Call::Hold(2, 1, b't'),
    Call::Holder(1, b's'),
    Call::Holder(1, b't'),
    Call::Holder(2, b's'),
    Call::JobOf(4),
    Call::Hold(4, 2, b's'),
    Call::Holder(1, b's'),
    Call::Holder(2, b's'),
    Call::JobOf(7),
    Call::End(7),
    Call::JobOf(7),
    Call::Holder(1, b's'),
    Call::End(9),
    Call::End(2),
    Call::Holder(1, b't'),
    Call::Jobs,
    Call::Hold(2, 1, b's'),
    Call::Holder(1, b's'),
];

fn letter(alloc: Global, no: u64, of: u8) -> Result<Letter, AllocError> {
    let no = letter_no(no)?;
    let trav = trav_no(1)?;
    let stack = stack_name(alloc, of)?;
    Ok(Letter {
        no,
        stack,
        trav,
        node: 3,
    })
}

fn job(alloc: Global, by: u64, at: u64, of: u8) -> Result<Job, AllocError> {
    let engine = engine_no(by)?;
    let row = row_no(at)?;
    let letter = letter(alloc, 9, of)?;
    Ok(Job {
        engine,
        letter,
        row,
        stage: Stage::Taken,
    })
}

// The call of jobs.
fn op_of_jobs(alloc: Global, call: Call) -> Result<MailOp, AllocError> {
    match call {
        Call::Hold(by, at, of) => Ok(MailOp::Hold(job(alloc, by, at, of)?)),
        Call::Holder(at, of) => {
            let row = row_no(at)?;
            Ok(MailOp::Holder(stack_name(alloc, of)?, row))
        }
        Call::JobOf(by) => Ok(MailOp::JobOf(engine_no(by)?)),
        Call::End(by) => Ok(MailOp::End(engine_no(by)?)),
        _ => Ok(MailOp::Jobs),
    }
}

fn op_of(alloc: Global, call: Call) -> Result<MailOp, AllocError> {
    match call {
        Call::Send(of) => {
            let trav = trav_no(1)?;
            Ok(MailOp::Send(stack_name(alloc, of)?, trav, 2))
        }
        Call::Insert(no, of) => Ok(MailOp::Insert(letter(alloc, no, of)?)),
        Call::Remove(no) => Ok(MailOp::Remove(letter_no(no)?)),
        Call::TakeFirst => Ok(MailOp::TakeFirst),
        Call::Letters => Ok(MailOp::Letters),
        Call::NextNo => Ok(MailOp::NextNo),
        Call::SetNext(no) => Ok(MailOp::SetNext(no)),
        Call::Reserve(letters, jobs) => Ok(MailOp::Reserve(letters, jobs)),
        call => op_of_jobs(alloc, call),
    }
}

fn ops_of(alloc: Global, calls: &[Call]) -> Result<Vec<MailOp>, AllocError> {
    let mut ops = Vec::new(alloc);
    for call in calls {
        ops.push(op_of(alloc, *call)?)?;
    }
    Ok(ops)
}

// The numbers of the letters that were taken and of the holders, 0 for none.
fn words_of(alloc: Global, answers: &[MailAnswer]) -> Result<String, AllocError> {
    let mut words = String::new(alloc);
    for answer in answers {
        match answer {
            MailAnswer::Taken(Some(letter)) => add(alloc, &mut words, letter.no.get())?,
            MailAnswer::Taken(None) => add(alloc, &mut words, 0)?,
            MailAnswer::Holder(no) => add(alloc, &mut words, no.map_or(0, |no| no.get()))?,
            _ => {}
        }
    }
    Ok(words)
}

fn told<R: Mails>(alloc: Global, mails: &mut R) -> Result<String, AllocError> {
    let ops = ops_of(alloc, &CALLS)?;
    let answers = run_mails(alloc, mails, &ops)?;
    words_of(alloc, answers.as_slice())
}

const WANTED: &str = "0 3 5 0 4 2 0 7 4 0 0 2 ";

#[test]
fn lists_answer_forty_calls(rt: HostRuntime) -> Result<(), AllocError> {
    let told = told(rt.alloc(), &mut ListMails::new(rt.alloc()))?;
    same(&rt, told.as_str(), WANTED);
    Ok(())
}

#[test]
fn a_table_answers_them_the_same(rt: HostRuntime) -> Result<(), AllocError> {
    let told = told(rt.alloc(), &mut MailTable::new(rt.alloc()))?;
    same(&rt, told.as_str(), WANTED);
    Ok(())
}
