//! Updates of an inventory.
ghost use Rattle.std.specs.Prelude.{◌≡◌, ◌<◌, ◌≤◌, ◌≢◌, Some, IfOk, OnOk, OnErr, length, slice_get, ◌+◌, ◌-◌, ◌^◌, min};
ghost use Rattle.heat_plan.specs.declared.calls.Request.TheVariants as ask;
ghost use Rattle.provider.specs.declared.traced.Traced.TheVariants.{Called};
ghost use Rattle.provider.specs.Cloud.{IsAlive};
ghost use Rattle.provider.specs.Changes.{Notes, Stays, Takes, IsAsBefore};
ghost use Rattle.provider.specs.Calls.{HasBegun, HasFailed};
ghost use Rattle.sim_cloud.specs.Holding.{place_of};
ghost use Rattle.sim_cloud.specs.Rule.{facts_again};
ghost use Rattle.sim_cloud.specs.Shown.{CountsFault, IsMadeAnew, IsMadeAnewLate};
ghost use Rattle.sim_cloud.specs.Simulated.{shown_by};
ghost use Rattle.sim_cloud.specs.declared.held.Held.{Held as held_type};

use crate::course::Course;
use crate::holdings::Holdings;
use crate::inventory::{Inventory, answer_or_memory, note};
use crate::rule::facts_anew;
use heat_plan::{Answered, Facts, Properties, Request, Token};
use heat_value::{Equals, TryCopy};
use provider::Answer;
use std::alloc::AllocError;

impl Inventory {
    /// Asks that an alive resource gets these properties; where they are others, so many polls are left,
    /// at most 64.
    pub fn update(&mut self, course: Course, token: &Token, props: &Properties, left: u8) -> Answer
        requires there { IsAlive (shown_by self.old) token.now }
        requires few { left ≤ 64 }
        ensures begun { result ≡ Answer.Begun → HasBegun token.now
            (ask.Update props.now) (shown_by self.old) (shown_by self.new) }
        ensures made { result ≡ Answer.Begun → IsMadeAnew token.now props.now left
            (shown_by self.old) (shown_by self.new) }
        ensures quota { result ≢ Answer.Quota }
        ensures failed { result ≡ Answer.Failed → HasFailed token.now
            (ask.Update props.now) (shown_by self.old) (shown_by self.new) }
        ensures works { course ≡ Course.Works → result ≢ Answer.Failed }
        ensures fails { course ≢ Course.Works → result ≢ Answer.Begun }
        ensures idle { course ≡ Course.Fails → result ≡ Answer.Failed →
            Stays (shown_by self.old) (shown_by self.new) }
        ensures late { course ≡ Course.FailsLate → result ≡ Answer.Failed → IsMadeAnewLate token.now
            props.now left (shown_by self.old) (shown_by self.new) }
        ensures memory { result ≡ Answer.Memory → IsAsBefore (shown_by self.old) (shown_by self.new) }
        ensures count { CountsFault Answer.Failed result self.old.faults self.new.faults }
    {
        match course {
            Course::Works => answer_or_memory(
                Answer::Begun,
                self.begin_update(Answered::Begun, token, props, left),
            ),
            Course::Fails => answer_or_memory(Answer::Failed, self.fail_update(token, props)),
            Course::FailsLate => answer_or_memory(
                Answer::Failed,
                self.update_late(token, props, left),
            ),
        }
    }

    // An update that fails with nothing done.
    fn fail_update(&mut self, token: &Token, props: &Properties) -> Result<(), AllocError>
        ensures ok { OnOk result (HasFailed token.now (ask.Update props.now)
            (shown_by self.old) (shown_by self.new)) }
        ensures idle { OnOk result (Stays (shown_by self.old) (shown_by self.new)) }
        ensures memory { OnErr result (IsAsBefore (shown_by self.old) (shown_by self.new)) }
        ensures faults { OnOk result (self.new.faults ≡ min (self.old.faults + 1) (2 ^ 64 - 1)) }
    {
        let request = Request::Update(props.copy()?);
        self.fail(token, request)
    }

    // An update that fails with its effect done.
    fn update_late(&mut self, token: &Token, props: &Properties, left: u8) -> Result<(), AllocError>
        requires there { IsAlive (shown_by self.old) token.now }
        requires few { left ≤ 64 }
        ensures ok { OnOk result (HasFailed token.now (ask.Update props.now)
            (shown_by self.old) (shown_by self.new)) }
        ensures late { OnOk result (IsMadeAnewLate token.now props.now left
            (shown_by self.old) (shown_by self.new)) }
        ensures memory { OnErr result (IsAsBefore (shown_by self.old) (shown_by self.new)) }
        ensures faults { OnOk result (self.new.faults ≡ min (self.old.faults + 1) (2 ^ 64 - 1)) }
    {
        self.begin_update(Answered::Failed, token, props, left)?;
        self.count_fault();
        Ok(())
    }

    // Notes an update with its answer, and sets the properties where they are others.
    fn begin_update(
        &mut self,
        answered: Answered,
        token: &Token,
        props: &Properties,
        left: u8,
    ) -> Result<(), AllocError>
        requires there { IsAlive (shown_by self.old) token.now }
        requires few { left ≤ 64 }
        ensures noted { OnOk result (Notes (Called token.now (ask.Update props.now) answered)
            (shown_by self.old) (shown_by self.new)) }
        ensures effect { OnOk result (Takes token.now (ask.Update props.now)
            (shown_by self.old) (shown_by self.new)) }
        ensures made { OnOk result (IsMadeAnew token.now props.now left
            (shown_by self.old) (shown_by self.new)) }
        ensures memory { OnErr result (IsAsBefore (shown_by self.old) (shown_by self.new)) }
        ensures faults { self.new.faults ≡ self.old.faults }
    {
        match self.held.place_of(token) {
            None => unreachable!(),
            Some(at) => {
                if self.held.get(at).what.props.equals(props) {
                    note(
                        &mut self.trace,
                        token,
                        Request::Update(props.copy()?),
                        answered,
                    )
                } else {
                    self.set_at(answered, at, token, props, left)
                }
            }
        }
    }

    // Notes an update with its answer, and gives the resource at this place other properties.
    fn set_at(
        &mut self,
        answered: Answered,
        at: usize,
        token: &Token,
        props: &Properties,
        left: u8,
    ) -> Result<(), AllocError>
        requires at { place_of self.old.held.all token.now ≡ Some at }
        requires few { left ≤ 64 }
        ensures noted { OnOk result (Notes (Called token.now (ask.Update props.now) answered)
            (shown_by self.old) (shown_by self.new)) }
        ensures effect { (h : held_type) → slice_get self.old.held.all at ≡ Some h →
            h.what.props ≢ props.now → OnOk result (Takes token.now (ask.Update props.now)
            (shown_by self.old) (shown_by self.new)) }
        ensures made { (h : held_type) → slice_get self.old.held.all at ≡ Some h →
            h.what.props ≢ props.now → OnOk result (IsMadeAnew token.now props.now left
            (shown_by self.old) (shown_by self.new)) }
        ensures memory { OnErr result (IsAsBefore (shown_by self.old) (shown_by self.new)) }
        ensures faults { self.new.faults ≡ self.old.faults }
    {
        let facts = facts_at(&self.held, at, token, props)?;
        let copy = props.copy()?;
        note(
            &mut self.trace,
            token,
            Request::Update(props.copy()?),
            answered,
        )?;
        self.held.set(at, copy, facts, left);
        Ok(())
    }
}

// The facts of the resource at this place, with its attributes anew.
fn facts_at(
    held: &Holdings,
    at: usize,
    token: &Token,
    props: &Properties,
) -> Result<Facts, AllocError>
    requires { at < length held.now.all }
    ensures { (h : held_type) → slice_get held.now.all at ≡ Some h →
        IfOk result (λ f. f ≡ facts_again h.what.facts props.now token.now.row) }
{
    let what = &held.get(at).what;
    facts_anew(held.all.allocator(), &what.facts, props, token.row)
}
