//! What a cloud in memory has: its resources, its quotas, its trace, and how often it has failed. Each of
//! its calls is told its course, and meets the clauses of the provider's call of that name.
ghost use Rattle.std.specs.Prelude.{◌≡◌, ◌≤◌, ◌++◌, ◌∷◌, [], ◌≢◌, ◌+◌, ◌-◌, ◌^◌, min};
ghost use Rattle.std.specs.Prelude.{None, Some, OnOk, OnErr, IsTrue, IsFalse};
ghost use Rattle.provider.specs.declared.traced.Traced.TheVariants.{Called};

use crate::holdings::Holdings;
use crate::settings::KindQuota;
use heat_plan::{Answered, Request, Token};
use heat_value::{Seq, Text, TryCopy};
use provider::{Answer, Traced};
use std::alloc::{AllocError, Global};

/// The resources, quotas, trace and count of faults of a cloud in memory.
#[derive(Debug)]
pub struct Inventory {
    pub held: Holdings,
    pub quotas: Seq<KindQuota>,
    pub trace: Seq<Traced>,
    pub faults: u64,
}

impl Drop for Inventory {
    fn drop(self) {
        let Inventory {
            held: _,
            quotas: _,
            trace: _,
            faults: _,
        } = self;
    }
}

impl Inventory {
    /// No resource, with these quotas.
    pub fn new(alloc: Global, quotas: Seq<KindQuota>) -> Inventory
        ensures held { result.held.all ≡ [] }
        ensures quotas { result.quotas ≡ quotas }
        ensures trace { result.trace ≡ [] }
        ensures faults { result.faults ≡ 0 }
    {
        Inventory::holding(alloc, Holdings::new(alloc), quotas)
    }

    /// These resources, with these quotas.
    pub fn holding(alloc: Global, held: Holdings, quotas: Seq<KindQuota>) -> Inventory
        ensures held { result.held ≡ held }
        ensures quotas { result.quotas ≡ quotas }
        ensures trace { result.trace ≡ [] }
        ensures faults { result.faults ≡ 0 }
    {
        Inventory {
            held,
            quotas,
            trace: Seq::new(alloc),
            faults: 0,
        }
    }
}

impl Inventory {
    ghost use Rattle.provider.specs.declared.alive.Alive.{Alive as alive_type};
    ghost use Rattle.provider.specs.Cloud.{IsFull, entry_of};
    ghost use Rattle.provider.specs.Changes.{IsAsBefore, Stays};
    ghost use Rattle.provider.specs.Calls.{HasFailed};
    ghost use Rattle.sim_cloud.specs.Shown.{quota_in};
    ghost use Rattle.sim_cloud.specs.Simulated.{shown_by};

    /// Whether an alive token's resource is ready.
    pub fn is_ready(&self, token: &Token) -> bool
        ensures { (it : alive_type) → entry_of (shown_by self.now) token.now ≡ Some it →
            result ≡ it.ready }
    {
        match self.held.place_of(token) {
            Some(at) => self.held.get(at).what.ready,
            None => false,
        }
    }

    /// How many polls of the token are left.
    pub fn left(&self, token: &Token) -> u8
        ensures { result ≡ (shown_by self.now).left token.now }
    {
        match self.held.place_of(token) {
            Some(at) => self.held.get(at).left,
            None => 0,
        }
    }

    /// A call fails with nothing done.
    pub(crate) fn fail(&mut self, token: &Token, request: Request) -> Result<(), AllocError>
        ensures ok { OnOk result (HasFailed token.now request (shown_by self.old) (shown_by self.new)) }
        ensures idle { OnOk result (Stays (shown_by self.old) (shown_by self.new)) }
        ensures memory { OnErr result (IsAsBefore (shown_by self.old) (shown_by self.new)) }
        ensures faults { OnOk result (self.new.faults ≡ min (self.old.faults + 1) (2 ^ 64 - 1)) }
    {
        note(&mut self.trace, token, request, Answered::Failed)?;
        self.count_fault();
        Ok(())
    }

    /// Raises the count of faults.
    pub(crate) fn count_fault(&mut self)
        ensures faults { self.new.faults ≡ min (self.old.faults + 1) (2 ^ 64 - 1) }
        ensures later { self.old.faults ≤ self.new.faults }
        ensures held { self.new.held ≡ self.old.held }
        ensures quotas { self.new.quotas ≡ self.old.quotas }
        ensures trace { self.new.trace ≡ self.old.trace }
    {
        self.faults = self.faults.saturating_add(1);
    }

    /// Whether a create of this token is refused: it isn't alive, and its kind's quota is reached.
    pub(crate) fn refuses(&self, token: &Token, kind: &Text) -> bool
        ensures absent { IsTrue result → entry_of (shown_by self.now) token.now ≡ None }
        ensures full { IsTrue result → IsFull (shown_by self.now) kind.now }
        ensures room { IsFalse result → entry_of (shown_by self.now) token.now ≡ None →
            ¬ IsFull (shown_by self.now) kind.now }
    {
        match self.held.place_of(token) {
            Some(_) => false,
            None => self.is_full(kind),
        }
    }

    // Whether no more of this kind may be alive.
    fn is_full(&self, kind: &Text) -> bool
        ensures full { IsTrue result → IsFull (shown_by self.now) kind.now }
        ensures room { IsFalse result → ¬ IsFull (shown_by self.now) kind.now }
    {
        match self.quota_of(kind) {
            None => false,
            Some(most) => most as usize <= self.held.count_of(kind),
        }
    }

    // How many of this kind may be alive; none where there is no quota.
    fn quota_of(&self, kind: &Text) -> Option<u32>
        ensures { result ≡ quota_in self.now.quotas kind.now }
    {
        for quota in self.quotas.as_slice() {
            if quota.kind == *kind {
                return Some(quota.most);
            }
        }
        None
    }
}

/// Puts a call with its answer behind the trace.
pub(crate) fn note(
    trace: &mut Seq<Traced>,
    token: &Token,
    request: Request,
    answered: Answered,
) -> Result<(), AllocError>
    ensures ok { OnOk result (trace.new ≡ trace.old ++ Called token.now request answered ∷ []) }
    ensures err { OnErr result (trace.new ≡ trace.old) }
{
    let token = token.copy()?;
    trace.push(Traced::Called(token, request, answered))
}

/// The answer of what was done, or Memory.
pub(crate) fn answer_or_memory(answer: Answer, done: Result<(), AllocError>) -> Answer
    ensures ok { OnOk done (result ≡ answer) }
    ensures memory { OnErr done (result ≡ Answer.Memory) }
{
    match done {
        Ok(()) => answer,
        Err(_) => Answer::Memory,
    }
}
