//! Calls of a book that make no turn, and the plan of one resource; none of them where there is no memory.

use book::{Book, Halt, StackCommand};
use heat_plan::{EngineNo, Plan, Properties, Refusal, ResName, StackName};
use heat_value::{TryCopy, Value};
use provider::Provider;
use record_keeper::Keeper;
use sample_plans::{boxes, item_of, plan_of};
use std::alloc::{AllocError, Global};

/// The kind of the one resource.
pub(crate) const KIND: &str = "Test::Box";

/// A create of the stack at size 1 and an update of it to size 2, with the property that changes in place;
/// its delete; a stop of the first engine; an enlisting; or a halt for want of memory.
#[derive(Clone, Copy)]
pub(crate) enum Order {
    Create(&'static str),
    Update(&'static str),
    Delete,
    Stop,
    Enlist,
    Halt,
}

/// Gives the order: `+` where it is taken, `m` where it wants memory, and else `-`.
pub(crate) fn ordered<K: Keeper, P: Provider>(
    alloc: Global,
    book: &mut Book<K, P>,
    e: EngineNo,
    order: Order,
) -> Option<u8> {
    match order {
        Order::Create(soft) => Some(taken(book, create(alloc, soft)?)),
        Order::Update(soft) => Some(taken(book, update(alloc, soft)?)),
        Order::Delete => Some(taken(book, StackCommand::Delete(stack_name(alloc)?))),
        Order::Stop => Some(letter_of(book.stop(e).err())),
        Order::Enlist => Some(letter_of(book.enlist().err())),
        Order::Halt => Some(halt(book)),
    }
}

// The letter of a command.
fn taken<K: Keeper, P: Provider>(book: &mut Book<K, P>, command: StackCommand) -> u8 {
    letter_of(book.command(command).err())
}

// The letter of a refusal, if there is one.
fn letter_of(refusal: Option<Refusal>) -> u8 {
    match refusal {
        None => b'+',
        Some(Refusal::Memory) => b'm',
        Some(_) => b'-',
    }
}

// Halts the book; the letter of whether it is halted for that.
fn halt<K: Keeper, P: Provider>(book: &mut Book<K, P>) -> u8 {
    book.halt(Halt::Memory);
    if book.halted() == Some(Halt::Memory) {
        b'+'
    } else {
        b'-'
    }
}

// The create, whose failure isn't rolled back.
fn create(alloc: Global, soft: &str) -> Option<StackCommand> {
    let plan = plan(alloc, soft, "{\"size\":1}")?;
    Some(StackCommand::Create(stack_name(alloc)?, plan, false))
}

// The update.
fn update(alloc: Global, soft: &str) -> Option<StackCommand> {
    let plan = plan(alloc, soft, "{\"size\":2}")?;
    Some(StackCommand::Update(stack_name(alloc)?, plan, false))
}

// The stack's name.
fn stack_name(alloc: Global) -> Option<StackName> {
    match StackName::read(alloc, b"s") {
        Ok(name) => name,
        Err(_) => None,
    }
}

// The plan of a box with these properties, of which one changes in place.
fn plan(alloc: Global, soft: &str, props: &str) -> Option<Plan> {
    let props = properties_of(alloc, props)?;
    match planned(alloc, soft, props) {
        Ok(plan) => Some(plan),
        Err(_) => None,
    }
}

// The properties of a text.
fn properties_of(alloc: Global, text: &str) -> Option<Properties> {
    match &Value::read(alloc, text.as_bytes()) {
        Ok(Value::Fields(props)) => Properties::from_props(props.copy().ok()?),
        _ => None,
    }
}

// The same plan; it fails where there is no memory.
fn planned(alloc: Global, soft: &str, props: Properties) -> Result<Plan, AllocError> {
    let name = ResName::read(alloc, b"a")?.ok_or(AllocError)?;
    let kind = boxes(alloc, &[], &[soft])?;
    plan_of(alloc, item_of(alloc, name, kind, props))
}
