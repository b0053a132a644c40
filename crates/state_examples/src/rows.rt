//! Forty calls of a table of rows, in both of its forms: what they answer.
use crate::parts::{add, engine_no, res_name, row_no, same, stack_name, trav_no};
use heat_plan::{Act, Policy, Properties, RowNo, Status};
use heat_value::Seq;
use row_table::{ListRows, Row, RowAnswer, RowOp, RowTable, Rows, run_rows};
use sample_plans::boxes;
use std::alloc::{AllocError, Global};

// A call, with numbers of rows, and with stacks and names by their letters. A lock is for the engine of the
// next number; what is set is the row s/a, which the row of the next number replaces.
#[derive(Clone, Copy)]
enum Call {
    Reserve(usize),
    Put(u64, u8, u8),
    Set(u64, Act),
    Current(u8, u8),
    OfStack(u8),
    Get(u64),
    Lock(u64),
    Unlock(u64),
    Head(u64),
    Purge(u64),
}

const CALLS: [Call; 40] = [
    // Rows come: three, then two more of a name that has one.
    Call::Reserve(4),
    Call::Put(1, b's', b'a'),
    Call::Put(2, b's', b'b'),
    Call::Put(3, b't', b'a'),
    Call::Current(b's', b'a'),
    Call::Current(b's', b'c'),
    Call::OfStack(b's'),
    Call::OfStack(b'u'),
    Call::Put(5, b's', b'a'),
    Call::Current(b's', b'a'),
    Call::Put(4, b's', b'a'),
    Call::Current(b's', b'a'),
    // The greatest is replaced, and locked then; another's chain ends at it; none of number 9 stands.
    Call::Lock(5),
    Call::Get(5),
    Call::Set(5, Act::Update),
    Call::Current(b's', b'a'),
    Call::Lock(5),
    Call::Set(4, Act::Update),
    Call::Head(4),
    Call::Set(9, Act::Update),
    Call::Get(9),
    Call::Head(9),
    Call::Unlock(9),
    Call::Purge(9),
    // A row goes to another stack, and others go for good.
    Call::Put(2, b't', b'a'),
    Call::OfStack(b's'),
    Call::OfStack(b't'),
    Call::Current(b't', b'a'),
    Call::Current(b's', b'b'),
    Call::Purge(1),
    Call::Get(1),
    Call::Purge(4),
    Call::OfStack(b's'),
    Call::Current(b's', b'a'),
    Call::Set(3, Act::Delete),
    Call::Current(b's', b'a'),
    Call::OfStack(b't'),
    Call::Lock(3),
    Call::Unlock(3),
    Call::Get(3),
];

// A row of this number, with a stack, a name and an act, and the row behind it.
fn row(
    alloc: Global,
    number: u64,
    of: (u8, u8),
    act: Act,
    behind: Option<RowNo>,
) -> Result<Row, AllocError> {
    let no = row_no(number)?;
    let trav = trav_no(1)?;
    let stack = stack_name(alloc, of.0)?;
    let name = res_name(alloc, of.1)?;
    let kind = boxes(alloc, &[], &[])?;
    Ok(Row {
        no,
        stack,
        name,
        kind,
        act,
        status: Status::InProgress,
        trav,
        props: Properties::new(alloc),
        target: None,
        facts: None,
        requires_: Seq::new(alloc),
        replaces: None,
        replaced_by: behind,
        engine: None,
        key: 0,
        policy: Policy::Delete,
    })
}

// The call of a row's number alone.
fn op_of_number(call: Call) -> Result<RowOp, AllocError> {
    match call {
        Call::Get(no) => Ok(RowOp::Get(row_no(no)?)),
        Call::Lock(no) => Ok(RowOp::Lock(row_no(no)?, engine_no(no.saturating_add(1))?)),
        Call::Unlock(no) => Ok(RowOp::Unlock(row_no(no)?)),
        Call::Head(no) => Ok(RowOp::Head(row_no(no)?)),
        Call::Purge(no) => Ok(RowOp::Purge(row_no(no)?)),
        _ => Err(AllocError),
    }
}

// What is put in the place of the row s/a: it is replaced by the row of the next number.
fn replaced(alloc: Global, no: u64, act: Act) -> Result<Row, AllocError> {
    let behind = row_no(no.saturating_add(1))?;
    row(alloc, no, (b's', b'a'), act, Some(behind))
}

fn op_of(alloc: Global, call: Call) -> Result<RowOp, AllocError> {
    match call {
        Call::Reserve(rows) => Ok(RowOp::Reserve(rows)),
        Call::Put(no, stack, name) => {
            let row = row(alloc, no, (stack, name), Act::Create, None)?;
            Ok(RowOp::Put(row))
        }
        Call::Set(no, act) => Ok(RowOp::Set(replaced(alloc, no, act)?)),
        Call::Current(stack, name) => {
            let stack = stack_name(alloc, stack)?;
            Ok(RowOp::Current(stack, res_name(alloc, name)?))
        }
        Call::OfStack(stack) => Ok(RowOp::OfStack(stack_name(alloc, stack)?)),
        call => op_of_number(call),
    }
}

fn ops_of(alloc: Global, calls: &[Call]) -> Result<Vec<RowOp>, AllocError> {
    let mut ops = Vec::new(alloc);
    for call in calls {
        ops.push(op_of(alloc, *call)?)?;
    }
    Ok(ops)
}

// The numbers of the current rows and of the chains' ends that were told, 0 for none.
fn words_of(alloc: Global, answers: &[RowAnswer]) -> Result<String, AllocError> {
    let mut words = String::new(alloc);
    for answer in answers {
        match answer {
            RowAnswer::Current(no) => add(alloc, &mut words, no.map_or(0, |no| no.get()))?,
            RowAnswer::Head(no) => add(alloc, &mut words, no.get())?,
            _ => {}
        }
    }
    Ok(words)
}

fn told<R: Rows>(alloc: Global, rows: &mut R) -> Result<String, AllocError> {
    let ops = ops_of(alloc, &CALLS)?;
    let answers = run_rows(alloc, rows, &ops)?;
    words_of(alloc, answers.as_slice())
}

const WANTED: &str = "1 0 5 5 4 5 3 0 0 0 ";

#[test]
fn a_list_answers_forty_calls(rt: HostRuntime) -> Result<(), AllocError> {
    let told = told(rt.alloc(), &mut ListRows::new(rt.alloc()))?;
    same(&rt, told.as_str(), WANTED);
    Ok(())
}

#[test]
fn a_table_answers_them_the_same(rt: HostRuntime) -> Result<(), AllocError> {
    let told = told(rt.alloc(), &mut RowTable::new(rt.alloc()))?;
    same(&rt, told.as_str(), WANTED);
    Ok(())
}
