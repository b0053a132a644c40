//! Single moves with their changes and entries written out, each by the law of its group. Nothing
//! here is run: each function has an empty body and stands for its clause.
ghost use Rattle.history_examples.specs.Covers.{StaleEndTells, StaleTakeOverTells};
ghost use Rattle.history_examples.specs.Edges.{OnlyCyclesAreLeftOut};
ghost use Rattle.history_examples.specs.Graphs.{FinishFits, GivenUpFits, OverrunFits, ReplacementFits};
ghost use Rattle.history_examples.specs.Jobs.{DeletedFits, ResumedFits};
ghost use Rattle.history_examples.specs.Links.{DeleteIsLinked, LeavingIsLinked, ReleaseIsLinked};
ghost use Rattle.history_examples.specs.Links.{ReplacementIsLinked, StealIsLinked, TakenIsLinked};
ghost use Rattle.history_examples.specs.Marks.{CleanedIsMarked};
ghost use Rattle.history_examples.specs.Rows.{BegunFits};
ghost use Rattle.history_examples.specs.Tells.{GivenUpIsRetained, InPlaceAgrees, PurgeAgrees};

/// Where a live engine without a job takes a letter, the links are right.
pub fn taken_is_linked()
    ensures { TakenIsLinked }
{}

/// Where a letter is taken whose row a stopped engine's job has, that job ends and the links are
/// right.
pub fn steal_is_linked()
    ensures { StealIsLinked }
{}

/// Where a row is replaced, both rows name each other and one engine has the new one.
pub fn replacement_is_linked()
    ensures { ReplacementIsLinked }
{}

/// Where an overrun job is released, the links are right.
pub fn release_is_linked()
    ensures { ReleaseIsLinked }
{}

/// Where a row is to be deleted, the links are right.
pub fn leaving_is_linked()
    ensures { LeavingIsLinked }
{}

/// Where a delete is marked complete, no row of its stack stands.
pub fn delete_is_linked()
    ensures { DeleteIsLinked }
{}

/// Where a row is replaced for the stack's traversal, the graphs fit.
pub fn replacement_fits()
    ensures { ReplacementFits }
{}

/// Where an overrun job ends and makes no row, the graphs fit.
pub fn overrun_fits()
    ensures { OverrunFits }
{}

/// Where a node is finished and those behind it have its input, the graphs fit.
pub fn finish_fits()
    ensures { FinishFits }
{}

/// Where a row that no name of the plan has any more is given up, the graphs fit.
pub fn given_up_fits()
    ensures { GivenUpFits }
{}

/// A candidate for an edge that is left out would have closed a cycle.
pub fn only_cycles_are_left_out()
    ensures { OnlyCyclesAreLeftOut }
{}

/// Where a row that is under way for the stack's traversal is gone on with, the jobs fit.
pub fn resumed_fits()
    ensures { ResumedFits }
{}

/// Where a row is to be deleted for the stack's traversal, the jobs fit.
pub fn deleted_fits()
    ensures { DeletedFits }
{}

/// Where a row at INIT is begun, it has the item's kind and properties, and the rows fit.
pub fn begun_fits()
    ensures { BegunFits }
{}

/// Where the last node is finished behind all others, clean-up nodes too, the marks fit.
pub fn cleaned_is_marked()
    ensures { CleanedIsMarked }
{}

/// Where a stopped engine's overrun job ends, whoever waits for its row is told.
pub fn stale_take_over_tells()
    ensures { StaleTakeOverTells }
{}

/// Where a job that came to its end is overrun, whoever waits for its row is told.
pub fn stale_end_tells()
    ensures { StaleEndTells }
{}

/// Where a change in place is begun, what may be alive fits the rows.
pub fn in_place_agrees()
    ensures { InPlaceAgrees }
{}

/// Where a row goes that is gone from the cloud, what is alive is named by a row.
pub fn purge_agrees()
    ensures { PurgeAgrees }
{}

/// Where a token is given up, it is a stored row's whose policy is Retain, and for the first time.
pub fn given_up_is_retained()
    ensures { GivenUpIsRetained }
{}
