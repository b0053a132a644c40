//! Written-out histories of a stack with one resource: each is a run, and has the main theorem; and
//! single moves with their changes and entries written out (`case_laws`). Nothing here is run: each
//! function has an empty body and stands for its clause.
#![tactic(auto)]

ghost use Rattle.history_examples.specs.Cancelled.{IsCancelled, cancelled_by_an_engine};
ghost use Rattle.history_examples.specs.Completed.{IsCompleted, complete_before_clean_up};
ghost use Rattle.history_examples.specs.Created.{IsCreated};
ghost use Rattle.history_examples.specs.Deleted.{IsDeleted, marked_while_a_row_stands};
ghost use Rattle.history_examples.specs.DeletedHalfway.{IsDeletedHalfway, marked_while_alive};
ghost use Rattle.history_examples.specs.FailedFirst.{IsUpdatedAfterFailure};
ghost use Rattle.history_examples.specs.FailedFirst.{asked_of_what_may_be_absent};
ghost use Rattle.history_examples.specs.InPlace.{IsUpdatedInPlace, updated_without_asking};
ghost use Rattle.history_examples.specs.Overtaken.{IsOvertaken, marked_though_overtaken};
ghost use Rattle.history_examples.specs.Retained.{IsRetained, given_up_twice};
ghost use Rattle.history_examples.specs.RolledBack.{IsRolledBack, updated_by_an_engine};
ghost use Rattle.history_examples.specs.Sentences.{SentencesAreAll};
ghost use Rattle.history_examples.specs.Spoiled.{IsNoRun, RunsHaveHeadline, called_when_complete};
ghost use Rattle.history_examples.specs.Spoiled.{marked_before_ready, marked_twice};
ghost use Rattle.history_examples.specs.Spoiled.{purged_while_alive, released_without_retain};
ghost use Rattle.history_examples.specs.Stolen.{IsStolen, marked_at_the_steal};
ghost use Rattle.history_examples.specs.TakenOver.{IsTakenOver, purged_at_the_take_over};
ghost use Rattle.history_examples.specs.Undone.{IsUndone, marked_in_doubt};

mod case_laws;

pub use case_laws::{
    begun_fits, cleaned_is_marked, delete_is_linked, deleted_fits, finish_fits, given_up_fits,
    given_up_is_retained, in_place_agrees, leaving_is_linked, only_cycles_are_left_out,
    overrun_fits, purge_agrees, release_is_linked, replacement_fits, replacement_is_linked,
    resumed_fits, stale_end_tells, stale_take_over_tells, steal_is_linked, taken_is_linked,
};

/// A run from the opening of the examples has the main theorem, where its answers are a provider's.
pub fn runs_have_headline()
    ensures { RunsHaveHeadline }
{}

/// The sentences on one entry are all that the main theorem says of it and of the moment behind it.
pub fn sentences_are_all()
    ensures { SentencesAreAll }
{}

/// A stack is created: the traversal is complete, and its one resource is alive as the plan asks.
pub fn a_stack_is_created()
    ensures { IsCreated }
{}

/// No run marks the create complete before the cloud says that the resource is ready.
pub fn none_is_marked_before_ready()
    ensures { IsNoRun marked_before_ready }
{}

/// No run marks the create a second time.
pub fn none_is_marked_twice()
    ensures { IsNoRun marked_twice }
{}

/// No run asks the cloud anything for a stack that is complete.
pub fn none_is_called_when_complete()
    ensures { IsNoRun called_when_complete }
{}

/// No run purges the row whose resource is alive.
pub fn none_is_purged_while_alive()
    ensures { IsNoRun purged_while_alive }
{}

/// No run gives a resource up whose policy isn't Retain.
pub fn none_is_released_without_retain()
    ensures { IsNoRun released_without_retain }
{}

/// An update overtakes the create between ask and poll: the old job ends, and the new traversal is
/// told.
pub fn an_update_overtakes()
    ensures { IsOvertaken }
{}

/// No run marks the overtaken traversal.
pub fn no_overtaken_traversal_is_marked()
    ensures { IsNoRun marked_though_overtaken }
{}

/// The update that overtook goes on: the row is replaced, the old one cleaned up, and then the mark
/// comes.
pub fn an_overtaking_update_is_completed()
    ensures { IsCompleted }
{}

/// No run marks that update before the clean-up, while two resources are alive under one name.
pub fn none_is_complete_before_clean_up()
    ensures { IsNoRun complete_before_clean_up }
{}

/// Another engine takes a stopped one's job over, and goes on with its row.
pub fn a_job_is_taken_over()
    ensures { IsTakenOver }
{}

/// No run purges the row at the take-over, whose resource is alive.
pub fn no_row_is_purged_at_a_take_over()
    ensures { IsNoRun purged_at_the_take_over }
{}

/// A create fails and the stack is updated: another row takes the failed one's place.
pub fn a_failed_stack_is_updated()
    ensures { IsUpdatedAfterFailure }
{}

/// No run asks for an update of what the failed row asked for, which may be absent.
pub fn no_failed_row_is_updated()
    ensures { IsNoRun asked_of_what_may_be_absent }
{}

/// A stack is deleted over a half-made replacement: the new row is to go before the one that it
/// replaces.
pub fn a_stack_is_deleted_halfway()
    ensures { IsDeletedHalfway }
{}

/// No run marks the delete complete while a resource is alive.
pub fn no_delete_is_marked_at_once()
    ensures { IsNoRun marked_while_alive }
{}

/// The delete goes on: the overtaken job's late resource goes, then the one that it was to replace,
/// then the stack.
pub fn a_delete_is_completed()
    ensures { IsDeleted }
{}

/// No run marks the delete complete while a row stands, whose resource is alive.
pub fn no_delete_is_marked_while_a_row_stands()
    ensures { IsNoRun marked_while_a_row_stands }
{}

/// A create fails and is rolled back to nothing, in one step.
pub fn a_failure_is_rolled_back()
    ensures { IsRolledBack }
{}

/// No run has another command by the engine behind the failure than the rollback.
pub fn no_engine_commands_an_update()
    ensures { IsNoRun updated_by_an_engine }
{}

/// The rollback goes on: the failed row is cleaned up, and nothing is alive or in doubt.
pub fn a_rollback_is_completed()
    ensures { IsUndone }
{}

/// No run marks the rollback while what failed may be alive.
pub fn no_rollback_is_marked_in_doubt()
    ensures { IsNoRun marked_in_doubt }
{}

/// A create is cancelled between ask and poll: it is rolled back to nothing.
pub fn a_create_is_cancelled()
    ensures { IsCancelled }
{}

/// No run has the cancel by an engine, where nothing has failed.
pub fn no_engine_cancels()
    ensures { IsNoRun cancelled_by_an_engine }
{}

/// An engine stops with an overtaken job, and another takes the update's letter and the row with it.
pub fn a_row_is_stolen()
    ensures { IsStolen }
{}

/// No run marks the update at the steal.
pub fn no_update_is_marked_at_the_steal()
    ensures { IsNoRun marked_at_the_steal }
{}

/// An update changes the resource in place, as a judge of the registry allows.
pub fn a_stack_is_updated_in_place()
    ensures { IsUpdatedInPlace }
{}

/// No run writes a row as updated without asking the cloud.
pub fn no_row_is_updated_without_asking()
    ensures { IsNoRun updated_without_asking }
{}

/// A create under the policy Retain fails and is rolled back: what may be alive is given up.
pub fn a_resource_is_retained()
    ensures { IsRetained }
{}

/// No run gives it up again.
pub fn none_is_given_up_twice()
    ensures { IsNoRun given_up_twice }
{}
