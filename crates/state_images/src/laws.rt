//! Laws of the states that changes make of nothing. Nothing here is run: each function has an empty body
//! and stands for its clauses.
ghost use Rattle.state_images.specs.Laws.{ChangesKeepKeepable, ChangesKeepMade, MadeHasSnapshot};
ghost use Rattle.state_images.specs.Laws.{MadeIsFormed, MadeIsRead};

/// Changes made a state of nothing exactly where each key stands once in it, each graph and past has its
/// stack, each graph has a point for each node and edges between nodes, and no engine and no released
/// token stands twice.
pub fn made_states_are_formed()
    ensures { MadeIsFormed }
{}

/// Each such state has its snapshot.
pub fn made_states_have_a_snapshot()
    ensures { MadeHasSnapshot }
{}

/// Changes that all apply leave such a state, and where a record may hold them, rows that it may hold.
pub fn changes_keep_made()
    ensures made { ChangesKeepMade }
    ensures keepable { ChangesKeepKeepable }
{}

/// Each such state has whole graphs; where a record may hold its rows, it reads as an image.
pub fn made_states_are_read()
    ensures { MadeIsRead }
{}
