//! Laws of the tables of a state: what a write leaves, where a node's target is, and what a change on
//! one stack leaves of the others.
ghost use Rattle.history_laws.specs.tables.Laws.{TargetIsOne};

/// A node has at most one target.
pub fn target_is_one()
    ensures { TargetIsOne }
{}
