//! Small graphs with their orders, cycles and paths.

use dep_graph::{Added, Graph, Order};
use heat_value::Text;
use std::process::Abort;
use std::test::Fail;

// A graph with these edges.
fn graph_of(
    rt: &(impl Abort + AllocGlobal),
    size: u32,
    edges: &[(u32, u32)],
) -> Result<Graph, Fail> {
    let mut graph = Graph::new(rt.alloc(), size)?;
    for (before, after) in edges {
        assert!(rt; *before < graph.size());
        assert!(rt; *after < graph.size());
        graph.add_edge(*before, *after)?;
    }
    Ok(graph)
}

struct Listing {
    name: &'static str,
    size: u32,
    edges: &'static [(u32, u32)],
    ordered: bool,
    nodes: &'static [u32],
}

const LISTINGS: &[Listing] = &[
    Listing {
        name: "no nodes",
        size: 0,
        edges: &[],
        ordered: true,
        nodes: &[],
    },
    Listing {
        name: "no edges",
        size: 2,
        edges: &[],
        ordered: true,
        nodes: &[0, 1],
    },
    Listing {
        name: "a diamond",
        size: 4,
        edges: &[(0, 1), (0, 2), (1, 3), (2, 3)],
        ordered: true,
        nodes: &[0, 1, 2, 3],
    },
    Listing {
        name: "greater nodes first",
        size: 4,
        edges: &[(3, 0), (2, 0), (3, 2)],
        ordered: true,
        nodes: &[1, 3, 2, 0],
    },
    Listing {
        name: "a and b",
        size: 2,
        edges: &[(0, 1), (1, 0)],
        ordered: false,
        nodes: &[0, 1],
    },
    Listing {
        name: "one alone",
        size: 2,
        edges: &[(1, 1)],
        ordered: false,
        nodes: &[1],
    },
    Listing {
        name: "behind a stem",
        size: 4,
        edges: &[(2, 0), (3, 2), (2, 3), (3, 1)],
        ordered: false,
        nodes: &[2, 3],
    },
    Listing {
        name: "by the least before, past a shorter one",
        size: 3,
        edges: &[(1, 0), (2, 1), (1, 2), (0, 2)],
        ordered: false,
        nodes: &[0, 1, 2],
    },
];

#[test]
fn lists_orders_and_cycles(rt: HostRuntime) -> Result<(), Fail> {
    for case in LISTINGS {
        let graph = graph_of(&rt, case.size, case.edges)?;
        let (ordered, nodes) = match graph.order()? {
            Order::Order(nodes) => (true, nodes),
            Order::Cycle(nodes) => (false, nodes),
        };
        assert_eq!(rt; ordered, case.ordered, "{}", case.name);
        assert_eq!(rt; nodes.as_slice(), case.nodes, "{}", case.name);
    }
    Ok(())
}

struct Closing {
    name: &'static str,
    size: u32,
    edges: &'static [(u32, u32)],
    before: u32,
    after: u32,
    path: &'static [u32],
}

const CLOSINGS: &[Closing] = &[
    Closing {
        name: "back",
        size: 2,
        edges: &[(0, 1)],
        before: 1,
        after: 0,
        path: &[0, 1],
    },
    Closing {
        name: "itself",
        size: 1,
        edges: &[],
        before: 0,
        after: 0,
        path: &[0],
    },
    Closing {
        name: "forward",
        size: 2,
        edges: &[],
        before: 0,
        after: 1,
        path: &[],
    },
    Closing {
        name: "again",
        size: 2,
        edges: &[(0, 1)],
        before: 0,
        after: 1,
        path: &[],
    },
    Closing {
        name: "through the least",
        size: 5,
        edges: &[(0, 1), (0, 2), (0, 3), (2, 4), (3, 4)],
        before: 4,
        after: 0,
        path: &[0, 2, 4],
    },
];

#[test]
fn refuses_what_closes(rt: HostRuntime) -> Result<(), Fail> {
    for case in CLOSINGS {
        let mut graph = graph_of(&rt, case.size, case.edges)?;
        assert!(rt; case.before < graph.size());
        assert!(rt; case.after < graph.size());
        assert!(rt; matches!(graph.order()?, Order::Order(_)));
        match graph.add_unless_cycle(case.before, case.after)? {
            Added::Added => assert_eq!(rt; case.path.len(), 0, "{}", case.name),
            Added::WouldClose(path) => assert_eq!(rt; path.as_slice(), case.path, "{}", case.name),
        }
    }
    Ok(())
}

#[test]
fn lends_neighbours_that_rise(rt: HostRuntime) -> Result<(), Fail> {
    let graph = graph_of(&rt, 4, &[(3, 1), (0, 1), (2, 1), (0, 1), (0, 3)])?;
    assert_eq!(rt; graph.size(), 4);
    assert_eq!(rt; graph.preds(1), [0, 2, 3].as_slice());
    assert_eq!(rt; graph.succs(0), [1, 3].as_slice());
    Ok(())
}
