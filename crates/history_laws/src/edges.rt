//! Laws of the edges of a plan's graph: none closes a cycle, and those of needs and those from names to
//! rows are all kept.
ghost use Rattle.history_laws.specs.edges.Laws.{EdgesFitPlan};

/// What is kept of the candidates of a plan whose needs have no cycle forms no cycle, has every edge of
/// needs and none else into an item, and has every edge from a name to a row of it.
pub fn edges_fit_plans()
    ensures { EdgesFitPlan }
{}
