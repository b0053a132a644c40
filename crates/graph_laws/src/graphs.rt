//! Laws of the graphs of stacks: after every step each graph is that of its plan and its rows.
ghost use Rattle.graph_laws.specs.graphs.Laws.{GraphsFit};
ghost use Rattle.step_relation.specs.Groups.{KeptByCommands, KeptByEngines, KeptByMoves};

/// After each move of an engine the graph of every stack is that of its plan and its rows.
pub fn graphs_kept_by_moves()
    ensures { KeptByMoves GraphsFit }
{}

/// After the stop of an engine, the enlisting of one and a restart each graph is as it was.
pub fn graphs_kept_by_engines()
    ensures { KeptByEngines GraphsFit }
{}

/// After each command the graph of every stack is that of its plan and its rows.
pub fn graphs_kept_by_commands()
    ensures { KeptByCommands GraphsFit }
{}
