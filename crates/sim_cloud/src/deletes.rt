//! Deletes of an inventory.
ghost use Rattle.std.specs.Prelude.{◌≡◌, ◌≤◌, ◌≢◌, OnOk, OnErr, ◌+◌, ◌-◌, ◌^◌, min};
ghost use Rattle.heat_plan.specs.declared.calls.Request.TheVariants as ask;
ghost use Rattle.provider.specs.declared.traced.Traced.TheVariants.{Called};
ghost use Rattle.provider.specs.Changes.{Notes, Stays, Takes, IsAsBefore};
ghost use Rattle.provider.specs.Calls.{HasBegun, HasFailed};
ghost use Rattle.sim_cloud.specs.Shown.{CountsFault, IsSentAway, IsSentAwayLate};
ghost use Rattle.sim_cloud.specs.Simulated.{shown_by};

use crate::course::Course;
use crate::inventory::{Inventory, answer_or_memory, note};
use heat_plan::{Answered, Request, Token};
use provider::Answer;
use std::alloc::AllocError;

impl Inventory {
    /// Asks that a resource goes; where it wasn't leaving, so many polls are left, at most 64.
    pub fn delete(&mut self, course: Course, token: &Token, left: u8) -> Answer
        requires { left ≤ 64 }
        ensures begun { result ≡ Answer.Begun →
            HasBegun token.now ask.Delete (shown_by self.old) (shown_by self.new) }
        ensures made { result ≡ Answer.Begun →
            IsSentAway token.now left (shown_by self.old) (shown_by self.new) }
        ensures quota { result ≢ Answer.Quota }
        ensures failed { result ≡ Answer.Failed →
            HasFailed token.now ask.Delete (shown_by self.old) (shown_by self.new) }
        ensures works { course ≡ Course.Works → result ≢ Answer.Failed }
        ensures fails { course ≢ Course.Works → result ≢ Answer.Begun }
        ensures idle { course ≡ Course.Fails → result ≡ Answer.Failed →
            Stays (shown_by self.old) (shown_by self.new) }
        ensures late { course ≡ Course.FailsLate → result ≡ Answer.Failed →
            IsSentAwayLate token.now left (shown_by self.old) (shown_by self.new) }
        ensures memory { result ≡ Answer.Memory → IsAsBefore (shown_by self.old) (shown_by self.new) }
        ensures count { CountsFault Answer.Failed result self.old.faults self.new.faults }
    {
        match course {
            Course::Works => answer_or_memory(
                Answer::Begun,
                self.begin_delete(Answered::Begun, token, left),
            ),
            Course::Fails => answer_or_memory(Answer::Failed, self.fail(token, Request::Delete)),
            Course::FailsLate => answer_or_memory(Answer::Failed, self.delete_late(token, left)),
        }
    }

    // A delete that fails with its effect done.
    fn delete_late(&mut self, token: &Token, left: u8) -> Result<(), AllocError>
        requires { left ≤ 64 }
        ensures ok { OnOk result
            (HasFailed token.now ask.Delete (shown_by self.old) (shown_by self.new)) }
        ensures late { OnOk result
            (IsSentAwayLate token.now left (shown_by self.old) (shown_by self.new)) }
        ensures memory { OnErr result (IsAsBefore (shown_by self.old) (shown_by self.new)) }
        ensures faults { OnOk result (self.new.faults ≡ min (self.old.faults + 1) (2 ^ 64 - 1)) }
    {
        self.begin_delete(Answered::Failed, token, left)?;
        self.count_fault();
        Ok(())
    }

    // Notes a delete with its answer, and marks an alive resource as leaving.
    fn begin_delete(
        &mut self,
        answered: Answered,
        token: &Token,
        left: u8,
    ) -> Result<(), AllocError>
        requires { left ≤ 64 }
        ensures noted { OnOk result (Notes (Called token.now ask.Delete answered)
            (shown_by self.old) (shown_by self.new)) }
        ensures effect { OnOk result
            (Takes token.now ask.Delete (shown_by self.old) (shown_by self.new)) }
        ensures made { OnOk result
            (IsSentAway token.now left (shown_by self.old) (shown_by self.new)) }
        ensures memory { OnErr result (IsAsBefore (shown_by self.old) (shown_by self.new)) }
        ensures faults { self.new.faults ≡ self.old.faults }
    {
        note(&mut self.trace, token, Request::Delete, answered)?;
        match self.held.place_of(token) {
            None => {}
            Some(at) => {
                if !self.held.get(at).leaving {
                    self.held.send_away(at, left);
                }
            }
        }
        Ok(())
    }
}
