//! Lines that make one step by the reader of commands: commands on stacks, and changes of engines.
ghost use Rattle.std.specs.Prelude.{◌≡◌, ◌≢◌, IfOk, IfErr, map};
ghost use Rattle.book.specs.Halting.{halt_for};
ghost use Rattle.driver.specs.Quiet.{page};
ghost use Rattle.converge_call.specs.Carrying.{Carries};
ghost use Rattle.converge_call.specs.Halting.{HaltsBehind, halt_behind, halt_broken};
ghost use Rattle.converge_call.specs.Notes.{IsUndone, IsUnkept, HasDone};
ghost use Rattle.converge_call.specs.Commands.{BodyDoes, OrderDoes, StopDoes, StartDoes, IsRefusedFor, IsUnplannedFor};
ghost use Rattle.converge_call.specs.Commands.{IsUnmadeFor, beside_body, exit_unmade};
ghost use Rattle.converge_call.specs.Stocks.{stock};
ghost use Rattle.template_plans.specs.Plans.{IsPlanOf, IsNoPlan};

use crate::exit::Exit;
use crate::means::Means;
use crate::notes::{refuse, refuse_at};
use driver::{Book, StackCommand};
use heat_plan::{EngineNo, Plan, Refusal, StackName};
use heat_value::TryCopy;
use hot_catalog::Catalog;
use hot_params::Ids;
use provider::Provider;
use record_keeper::Keeper;
use script_lines::Body;
use std::alloc::Global;
use template_plans::{PlanFault, plan_of};

/// Creates a stack by the plan of a body.
pub fn create<K: Keeper, P: Provider>(
    by: &Means<'_>,
    catalog: &Catalog,
    book: &mut Book<K, P>,
    number: u64,
    name: StackName,
    body: &Body,
) -> Result<(), Exit>
    ensures done { HasDone
        (BodyDoes (stock (map (λ t. t.test) by.now.registry.now.customs) catalog.now) number name body.now
        (λ plan. StackCommand.Create name plan body.now.rollback)) IsUnkept
        (page book.old.state book.old.entries) (page book.new.state book.new.entries) result }
    ensures carries { Carries K.shown P.cloud book.old book.new }
    ensures halt { HaltsBehind halt_broken book.old.halt book.new.halt result }
{
    match planned(by, catalog, book, &name, body) {
        Ok(plan) => {
            let command = StackCommand::Create(name, plan, body.rollback());
            order(by.alloc, book, number, command)
        }
        Err(fault) => refuse_plan(by.alloc, book, number, &fault),
    }
}

/// Updates a stack to the plan of a body.
pub fn update<K: Keeper, P: Provider>(
    by: &Means<'_>,
    catalog: &Catalog,
    book: &mut Book<K, P>,
    number: u64,
    name: StackName,
    body: &Body,
) -> Result<(), Exit>
    ensures done { HasDone
        (BodyDoes (stock (map (λ t. t.test) by.now.registry.now.customs) catalog.now) number name body.now
        (λ plan. StackCommand.Update name plan body.now.rollback)) IsUnkept
        (page book.old.state book.old.entries) (page book.new.state book.new.entries) result }
    ensures carries { Carries K.shown P.cloud book.old book.new }
    ensures halt { HaltsBehind halt_broken book.old.halt book.new.halt result }
{
    match planned(by, catalog, book, &name, body) {
        Ok(plan) => {
            let command = StackCommand::Update(name, plan, body.rollback());
            order(by.alloc, book, number, command)
        }
        Err(fault) => refuse_plan(by.alloc, book, number, &fault),
    }
}

// The plan of a body for the stack of this name, as the book stands.
fn planned<K: Keeper, P: Provider>(
    by: &Means<'_>,
    catalog: &Catalog,
    book: &Book<K, P>,
    name: &StackName,
    body: &Body,
) -> Result<Plan, PlanFault>
    ensures ok { IfOk result (λ p. IsPlanOf body.now (beside_body
        (stock (map (λ t. t.test) by.now.registry.now.customs) catalog.now) book.now.state name.now) p) }
    ensures fault { IfErr result (λ e. e ≢ PlanFault.Memory → IsNoPlan body.now (beside_body
        (stock (map (λ t. t.test) by.now.registry.now.customs) catalog.now) book.now.state name.now) e) }
{
    let ids = Ids {
        stack: name.copy()?,
        no: book.stack_no(name),
    };
    plan_of(by.alloc, body, catalog, &ids, by.registry)
}

/// Makes a command's step, or notes why not.
pub fn order<K: Keeper, P: Provider>(
    alloc: Global,
    book: &mut Book<K, P>,
    number: u64,
    command: StackCommand,
) -> Result<(), Exit>
    ensures done { HasDone (OrderDoes number command) IsUnkept
        (page book.old.state book.old.entries) (page book.new.state book.new.entries) result }
    ensures carries { Carries K.shown P.cloud book.old book.new }
    ensures halt { HaltsBehind halt_broken book.old.halt book.new.halt result }
{
    book.promises();
    match book.command(command) {
        Ok(_) => Ok(()),
        Err(refusal) => refuse_for(alloc, book, number, refusal),
    }
}

/// Stops an engine, or notes that it isn't live.
pub fn stop<K: Keeper, P: Provider>(
    alloc: Global,
    book: &mut Book<K, P>,
    number: u64,
    engine: EngineNo,
) -> Result<(), Exit>
    ensures done { HasDone (StopDoes number engine) IsUnkept
        (page book.old.state book.old.entries) (page book.new.state book.new.entries) result }
    ensures carries { Carries K.shown P.cloud book.old book.new }
    ensures halt { HaltsBehind halt_broken book.old.halt book.new.halt result }
{
    book.promises();
    match book.stop(engine) {
        Ok(()) => Ok(()),
        Err(refusal) => refuse_for(alloc, book, number, refusal),
    }
}

/// Enlists an engine, or notes why not.
pub fn start<K: Keeper, P: Provider>(
    alloc: Global,
    book: &mut Book<K, P>,
    number: u64,
) -> Result<(), Exit>
    ensures done { HasDone (StartDoes number) IsUnkept
        (page book.old.state book.old.entries) (page book.new.state book.new.entries) result }
    ensures carries { Carries K.shown P.cloud book.old book.new }
    ensures halt { HaltsBehind halt_broken book.old.halt book.new.halt result }
{
    book.promises();
    match book.enlist() {
        Ok(_) => Ok(()),
        Err(refusal) => refuse_for(alloc, book, number, refusal),
    }
}

// Notes a refusal that has a code. One without is want of memory, or a fault of the keeper.
fn refuse_for<K: Keeper, P: Provider>(
    alloc: Global,
    book: &mut Book<K, P>,
    number: u64,
    refusal: Refusal,
) -> Result<(), Exit>
    ensures done { HasDone (IsRefusedFor number refusal) (IsUnmadeFor refusal)
        (page book.old.state book.old.entries) (page book.new.state book.new.entries) result }
    ensures only { book.new ≡ record book.old { entries = book.new.entries } }
    ensures carries { Carries K.shown P.cloud book.old book.new }
    ensures halts { halt_behind halt_broken result ≡ halt_for refusal }
{
    match refusal.code() {
        Some(code) => refuse(alloc, book, number, code),
        None => Err(unmade(refusal)),
    }
}

// How a line ends whose step wasn't made, where that has no code.
fn unmade(refusal: Refusal) -> Exit
    ensures { result ≡ exit_unmade refusal }
{
    match refusal {
        Refusal::DiskFault => Exit::DiskFault,
        Refusal::StackExists | Refusal::NoStack | Refusal::Deleting | Refusal::TooManyStacks => {
            Exit::Memory
        }
        Refusal::TooManyRows | Refusal::Worn | Refusal::NoEngine | Refusal::TooManyEngines => {
            Exit::Memory
        }
        Refusal::NotRunning | Refusal::Memory => Exit::Memory,
    }
}

// Notes why a body has no plan.
fn refuse_plan<K: Keeper, P: Provider>(
    alloc: Global,
    book: &mut Book<K, P>,
    number: u64,
    fault: &PlanFault,
) -> Result<(), Exit>
    ensures done { HasDone (IsUnplannedFor number fault.now) IsUndone
        (page book.old.state book.old.entries) (page book.new.state book.new.entries) result }
    ensures carries { Carries K.shown P.cloud book.old book.new }
    ensures halt { HaltsBehind halt_broken book.old.halt book.new.halt result }
{
    match fault.code() {
        Some(code) => refuse_at(alloc, book, number, code, fault.path()),
        None => Err(Exit::Memory),
    }
}
