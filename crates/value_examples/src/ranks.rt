//! Nodes have one rank exactly where loops join them: no clause says so of different ranks, which spare searches.

use dep_graph::{Graph, ranks};
use std::process::Abort;
use std::test::Fail;

// The edges of a graph, and for each node the least that a loop joins to it, else itself.
struct Case {
    name: &'static str,
    size: u32,
    edges: &'static [(u32, u32)],
    joined: &'static [u32],
}

const CASES: &[Case] = &[
    Case {
        name: "no nodes",
        size: 0,
        edges: &[],
        joined: &[],
    },
    Case {
        name: "a diamond",
        size: 4,
        edges: &[(0, 1), (0, 2), (1, 3), (2, 3)],
        joined: &[0, 1, 2, 3],
    },
    Case {
        name: "one alone",
        size: 3,
        edges: &[(1, 1)],
        joined: &[0, 1, 2],
    },
    Case {
        name: "between two loops",
        size: 7,
        edges: &[
            (3, 4),
            (4, 3),
            (4, 0),
            (0, 1),
            (1, 2),
            (2, 5),
            (5, 6),
            (6, 5),
        ],
        joined: &[0, 1, 2, 3, 3, 5, 5],
    },
    Case {
        name: "against the numbers between two loops",
        size: 7,
        edges: &[
            (6, 5),
            (5, 6),
            (5, 2),
            (2, 1),
            (1, 0),
            (0, 4),
            (4, 3),
            (3, 4),
        ],
        joined: &[0, 1, 2, 3, 3, 5, 5],
    },
    Case {
        name: "two loops through one node",
        size: 6,
        edges: &[(2, 0), (0, 2), (2, 3), (3, 4), (4, 2), (1, 2), (3, 5)],
        joined: &[0, 1, 0, 0, 0, 5],
    },
    Case {
        name: "a loop that one leaves on two ways",
        size: 5,
        edges: &[(0, 1), (1, 2), (2, 0), (0, 3), (2, 4), (3, 4)],
        joined: &[0, 0, 0, 3, 4],
    },
];

#[test]
fn ranks_are_those_of_loops(rt: HostRuntime) -> Result<(), Fail> {
    for case in CASES {
        let graph = graph_of(&rt, case)?;
        let ranks = ranks(&graph)?;
        assert_eq!(rt; ranks.len(), case.joined.len(), "{}", case.name);
        for (rank, least) in ranks.iter().zip(case.joined) {
            for (other, other_least) in ranks.iter().zip(case.joined) {
                assert_eq!(rt; rank == other, least == other_least, "{}", case.name);
            }
        }
    }
    Ok(())
}

fn graph_of(rt: &(impl Abort + AllocGlobal), case: &Case) -> Result<Graph, Fail> {
    let mut graph = Graph::new(rt.alloc(), case.size)?;
    for (before, after) in case.edges {
        assert!(rt; *before < graph.size());
        assert!(rt; *after < graph.size());
        graph.add_edge(*before, *after)?;
    }
    Ok(graph)
}
