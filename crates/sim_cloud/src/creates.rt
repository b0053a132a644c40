//! Creates of an inventory.
ghost use Rattle.std.specs.Prelude.{◌≡◌, ◌-◌, ◌++◌, ◌∷◌, [], ◌<◌, ◌≤◌, ◌≢◌, false, None, Some};
ghost use Rattle.std.specs.Prelude.{IfOk, OnOk, OnErr, length, take, ◌+◌, ◌^◌, min};
ghost use Rattle.heat_plan.specs.declared.calls.Request.TheVariants as ask;
ghost use Rattle.provider.specs.declared.traced.Traced.TheVariants.{Called};
ghost use Rattle.provider.specs.Cloud.{IsFull, entry_of};
ghost use Rattle.provider.specs.Changes.{Notes, Stays, Takes, IsAsBefore};
ghost use Rattle.provider.specs.Calls.{HasBegun, HasFailed, IsRefused};
ghost use Rattle.sim_cloud.specs.Holding.{place_of};
ghost use Rattle.sim_cloud.specs.Rule.{fresh};
ghost use Rattle.sim_cloud.specs.Shown.{CountsFault, IsMade, IsMadeLate};
ghost use Rattle.sim_cloud.specs.Simulated.{shown_by};

use crate::course::Course;
use crate::held::Held;
use crate::holdings::Holdings;
use crate::inventory::{Inventory, answer_or_memory, note};
use crate::rule::new_resource;
use heat_plan::{Answered, Kind, Properties, Request, Token};
use heat_value::TryCopy;
use provider::Answer;
use std::alloc::AllocError;

impl Inventory {
    /// Asks for a resource; where it is added, so many polls are left, at most 64.
    pub fn create(
        &mut self,
        course: Course,
        token: &Token,
        kind: &Kind,
        props: &Properties,
        left: u8,
    ) -> Answer
        requires { left ≤ 64 }
        ensures begun { result ≡ Answer.Begun → HasBegun token.now
            (ask.Create kind.now.name props.now) (shown_by self.old) (shown_by self.new) }
        ensures made { result ≡ Answer.Begun → IsMade token.now kind.now props.now left
            (shown_by self.old) (shown_by self.new) }
        ensures quota { result ≡ Answer.Quota → IsRefused token.now kind.now.name props.now
            (shown_by self.old) (shown_by self.new) }
        ensures failed { result ≡ Answer.Failed → HasFailed token.now
            (ask.Create kind.now.name props.now) (shown_by self.old) (shown_by self.new) }
        ensures works { course ≡ Course.Works → result ≢ Answer.Failed }
        ensures fails { course ≢ Course.Works → (result ≢ Answer.Begun) × (result ≢ Answer.Quota) }
        ensures idle { course ≡ Course.Fails → result ≡ Answer.Failed →
            Stays (shown_by self.old) (shown_by self.new) }
        ensures late { course ≡ Course.FailsLate → result ≡ Answer.Failed → IsMadeLate token.now
            kind.now props.now left (shown_by self.old) (shown_by self.new) }
        ensures memory { result ≡ Answer.Memory → IsAsBefore (shown_by self.old) (shown_by self.new) }
        ensures count { CountsFault Answer.Failed result self.old.faults self.new.faults }
    {
        match course {
            Course::Works => self.create_now(token, kind, props, left),
            Course::Fails => answer_or_memory(Answer::Failed, self.fail_create(token, kind, props)),
            Course::FailsLate => answer_or_memory(
                Answer::Failed,
                self.create_late(token, kind, props, left),
            ),
        }
    }

    // A create that works.
    fn create_now(&mut self, token: &Token, kind: &Kind, props: &Properties, left: u8) -> Answer
        requires { left ≤ 64 }
        ensures begun { result ≡ Answer.Begun → HasBegun token.now
            (ask.Create kind.now.name props.now) (shown_by self.old) (shown_by self.new) }
        ensures made { result ≡ Answer.Begun → IsMade token.now kind.now props.now left
            (shown_by self.old) (shown_by self.new) }
        ensures quota { result ≡ Answer.Quota → IsRefused token.now kind.now.name props.now
            (shown_by self.old) (shown_by self.new) }
        ensures works { result ≢ Answer.Failed }
        ensures memory { result ≡ Answer.Memory → IsAsBefore (shown_by self.old) (shown_by self.new) }
        ensures faults { self.new.faults ≡ self.old.faults }
    {
        if self.refuses(token, &kind.name) {
            answer_or_memory(Answer::Quota, self.refuse(token, kind, props))
        } else {
            answer_or_memory(
                Answer::Begun,
                self.begin_create(Answered::Begun, token, kind, props, left),
            )
        }
    }

    // Notes that a create is refused.
    fn refuse(&mut self, token: &Token, kind: &Kind, props: &Properties) -> Result<(), AllocError>
        requires absent { entry_of (shown_by self.old) token.now ≡ None }
        requires full { IsFull (shown_by self.old) kind.now.name }
        ensures ok { OnOk result (IsRefused token.now kind.now.name props.now
            (shown_by self.old) (shown_by self.new)) }
        ensures memory { OnErr result (IsAsBefore (shown_by self.old) (shown_by self.new)) }
        ensures faults { self.new.faults ≡ self.old.faults }
    {
        let request = Request::Create(kind.name.copy()?, props.copy()?);
        note(&mut self.trace, token, request, Answered::Quota)
    }

    // A create that fails with nothing done.
    fn fail_create(
        &mut self,
        token: &Token,
        kind: &Kind,
        props: &Properties,
    ) -> Result<(), AllocError>
        ensures ok { OnOk result (HasFailed token.now (ask.Create kind.now.name props.now)
            (shown_by self.old) (shown_by self.new)) }
        ensures idle { OnOk result (Stays (shown_by self.old) (shown_by self.new)) }
        ensures memory { OnErr result (IsAsBefore (shown_by self.old) (shown_by self.new)) }
        ensures faults { OnOk result (self.new.faults ≡ min (self.old.faults + 1) (2 ^ 64 - 1)) }
    {
        let request = Request::Create(kind.name.copy()?, props.copy()?);
        self.fail(token, request)
    }

    // A create that fails with its effect done, unless it is refused.
    fn create_late(
        &mut self,
        token: &Token,
        kind: &Kind,
        props: &Properties,
        left: u8,
    ) -> Result<(), AllocError>
        requires { left ≤ 64 }
        ensures ok { OnOk result (HasFailed token.now (ask.Create kind.now.name props.now)
            (shown_by self.old) (shown_by self.new)) }
        ensures late { OnOk result (IsMadeLate token.now kind.now props.now left
            (shown_by self.old) (shown_by self.new)) }
        ensures memory { OnErr result (IsAsBefore (shown_by self.old) (shown_by self.new)) }
        ensures faults { OnOk result (self.new.faults ≡ min (self.old.faults + 1) (2 ^ 64 - 1)) }
    {
        if self.refuses(token, &kind.name) {
            return self.fail_create(token, kind, props);
        }
        self.begin_create(Answered::Failed, token, kind, props, left)?;
        self.count_fault();
        Ok(())
    }

    // Notes a create with its answer, and adds the resource where it isn't alive.
    fn begin_create(
        &mut self,
        answered: Answered,
        token: &Token,
        kind: &Kind,
        props: &Properties,
        left: u8,
    ) -> Result<(), AllocError>
        requires few { left ≤ 64 }
        requires room { entry_of (shown_by self.old) token.now ≡ None →
            ¬ IsFull (shown_by self.old) kind.now.name }
        ensures noted { OnOk result (Notes
            (Called token.now (ask.Create kind.now.name props.now) answered)
            (shown_by self.old) (shown_by self.new)) }
        ensures effect { OnOk result (Takes token.now (ask.Create kind.now.name props.now)
            (shown_by self.old) (shown_by self.new)) }
        ensures made { OnOk result (IsMade token.now kind.now props.now left
            (shown_by self.old) (shown_by self.new)) }
        ensures memory { OnErr result (IsAsBefore (shown_by self.old) (shown_by self.new)) }
        ensures faults { self.new.faults ≡ self.old.faults }
    {
        let request = Request::Create(kind.name.copy()?, props.copy()?);
        note(&mut self.trace, token, request, answered)?;
        match self.held.place_of(token) {
            Some(_) => Ok(()),
            None => self.add_noted(token, kind, props, left),
        }
    }

    // Adds a resource whose create is noted, or takes the note back.
    fn add_noted(
        &mut self,
        token: &Token,
        kind: &Kind,
        props: &Properties,
        left: u8,
    ) -> Result<(), AllocError>
        requires absent { place_of self.old.held.all token.now ≡ None }
        requires few { left ≤ 64 }
        requires noted { 0 < length self.old.trace }
        ensures ok { OnOk result (self.new.held.all ≡ self.old.held.all ++ (record {
          what = fresh token.now kind.now props.now;
          leaving = false;
          left = left;
        }) ∷ []) }
        ensures kept { OnOk result (self.new.trace ≡ self.old.trace) }
        ensures err { OnErr result (self.new.held.all ≡ self.old.held.all) }
        ensures back { OnErr result (self.new.trace
            ≡ take (length self.old.trace - 1) self.old.trace) }
        ensures quotas { self.new.quotas ≡ self.old.quotas }
        ensures faults { self.new.faults ≡ self.old.faults }
    {
        match add(&mut self.held, token, kind, props, left) {
            Ok(()) => Ok(()),
            Err(error) => {
                self.trace.truncate(self.trace.len() - 1);
                Err(error)
            }
        }
    }
}

// Adds a new resource.
fn add(
    held: &mut Holdings,
    token: &Token,
    kind: &Kind,
    props: &Properties,
    left: u8,
) -> Result<(), AllocError>
    requires absent { place_of held.old.all token.now ≡ None }
    requires few { left ≤ 64 }
    ensures ok { OnOk result (held.new.all ≡ held.old.all ++ (record {
      what = fresh token.now kind.now props.now;
      leaving = false;
      left = left;
    }) ∷ []) }
    ensures err { OnErr result (held.new.all ≡ held.old.all) }
{
    let what = new_resource(held.all.allocator(), token, kind, props)?;
    held.add(Held {
        what,
        leaving: false,
        left,
    })
}
