//! Graphs of traversals, the left-out edge of a cyclic clean-up among them. Names are single letters.

use heat_plan::{Item, Needs, ResName, RowNo, are_in_order, is_rising};
use heat_value::{Equals, Seq, TryCopy};
use sample_plans::bare_item;
use std::process::Abort;
use std::test::Fail;
use traversal_graph::{Node, RowBrief, TravGraph, build};

// What a graph is drawn from, and what it is to be. Needs are pairs of an item and its need,
// required and replaced rows pairs of a row and the other.
#[derive(Drop)]
struct Case<'a> {
    name: &'a str,
    items: &'a [u8],
    needs: &'a [(u8, u8)],
    rows: &'a [(u64, u8)],
    required: &'a [(u64, u64)],
    replaced: &'a [(u64, u64)],
    nodes: &'a [(bool, u64)],
    edges: &'a [(u32, u32)],
    leaves: &'a [u32],
}

#[test]
fn items_and_rows_are_drawn(rt: HostRuntime) -> Result<(), Fail> {
    let cases = [
        Case {
            name: "nothing",
            items: &[],
            needs: &[],
            rows: &[],
            required: &[],
            replaced: &[],
            nodes: &[],
            edges: &[],
            leaves: &[],
        },
        Case {
            name: "a diamond",
            items: b"abcd",
            needs: &[(b'b', b'a'), (b'c', b'a'), (b'd', b'b'), (b'd', b'c')],
            rows: &[],
            required: &[],
            replaced: &[],
            nodes: &[(true, 101), (true, 102), (true, 103), (true, 104)],
            edges: &[(0, 1), (0, 2), (1, 3), (2, 3)],
            leaves: &[0],
        },
        Case {
            name: "the clean-up that would go round",
            items: &[],
            needs: &[],
            rows: &[(1, b'a'), (2, b'b'), (3, b'a')],
            required: &[(1, 2), (2, 3)],
            replaced: &[(3, 1)],
            nodes: &[(false, 1), (false, 2), (false, 3)],
            edges: &[(0, 1), (1, 2)],
            leaves: &[0],
        },
        Case {
            name: "rows in any order behind their item",
            items: b"ab",
            needs: &[(b'b', b'a')],
            rows: &[(5, b'b'), (2, b'a')],
            required: &[(5, 2), (5, 9)],
            replaced: &[],
            nodes: &[(true, 101), (true, 102), (false, 2), (false, 5)],
            edges: &[(0, 1), (0, 2), (1, 3), (3, 2)],
            leaves: &[0],
        },
    ];
    for case in &cases {
        draws(&rt, case)?;
    }
    Ok(())
}

fn draws(rt: &(impl Abort + AllocGlobal), case: &Case<'_>) -> Result<(), Fail> {
    let items = items_of(rt, case)?;
    let rows = rows_of(rt, case)?;
    let chosen = chosen_for(rt, items.len())?;
    assert_eq!(rt; chosen.len(), items.len());
    assert!(rt; are_in_order(&items));
    let graph = build(rt.alloc(), &items, &chosen, &rows)?;
    shows(rt, case, &graph)
}

fn items_of(rt: &(impl Abort + AllocGlobal), case: &Case<'_>) -> Result<Vec<Item>, Fail> {
    let mut items = Vec::new(rt.alloc());
    for name in case.items {
        items.push(item(rt, *name, needs_of(rt, case, *name)?)?)?;
    }
    Ok(items)
}

fn needs_of(rt: &impl AllocGlobal, case: &Case<'_>, item: u8) -> Result<Seq<ResName>, Fail> {
    let mut needs = Seq::new(rt.alloc());
    for (name, need) in case.needs {
        if *name == item {
            needs.push(name_of(rt, *need)?)?;
        }
    }
    Ok(needs)
}

fn item(rt: &(impl Abort + AllocGlobal), name: u8, needs: Seq<ResName>) -> Result<Item, Fail> {
    assert!(rt; is_rising(needs.as_slice()));
    let mut item = bare_item(rt.alloc(), name_of(rt, name)?)?;
    item.needs = Needs::from_rising(needs);
    Ok(item)
}

fn name_of(rt: &impl AllocGlobal, letter: u8) -> Result<ResName, Fail> {
    Ok(ResName::read(rt.alloc(), &[letter])?.ok_or("a name")?)
}

fn rows_of(rt: &impl AllocGlobal, case: &Case<'_>) -> Result<Vec<RowBrief>, Fail> {
    let mut rows = Vec::new(rt.alloc());
    for (no, name) in case.rows {
        rows.push(RowBrief {
            no: number(*no)?,
            name: name_of(rt, *name)?,
            requires_: numbers_beside(rt, case.required, *no)?,
            replaces: numbers_beside(rt, case.replaced, *no)?
                .as_slice()
                .first()
                .copied(),
        })?;
    }
    Ok(rows)
}

// The numbers that stand beside this one.
fn numbers_beside(
    rt: &impl AllocGlobal,
    pairs: &[(u64, u64)],
    no: u64,
) -> Result<Seq<RowNo>, Fail> {
    let mut numbers = Seq::new(rt.alloc());
    for (one, other) in pairs {
        if *one == no {
            numbers.push(number(*other)?)?;
        }
    }
    Ok(numbers)
}

fn number(no: u64) -> Result<RowNo, Fail> {
    Ok(RowNo::new(no).ok_or("a number")?)
}

// The rows 101, 102 and so on.
fn chosen_for(rt: &impl AllocGlobal, count: usize) -> Result<Vec<RowNo>, Fail> {
    let mut chosen = Vec::new(rt.alloc());
    for place in 0..count {
        chosen.push(number((place as u64).saturating_add(101))?)?;
    }
    Ok(chosen)
}

fn shows(rt: &(impl Abort + AllocGlobal), case: &Case<'_>, graph: &TravGraph) -> Result<(), Fail> {
    let mut nodes = Vec::new(rt.alloc());
    for node in graph.nodes.as_slice() {
        nodes.push(kind_and_row(node))?;
    }
    assert_eq!(rt; nodes.as_slice(), case.nodes, "{}", case.name);
    assert_eq!(rt; graph.edges.as_slice(), case.edges, "{}", case.name);
    assert_eq!(rt; graph.leaves()?.as_slice(), case.leaves, "{}", case.name);
    Ok(())
}

// Whether a node is an update node, and its row's number.
fn kind_and_row(node: &Node) -> (bool, u64) {
    match node {
        Node::U(_, no) => (true, no.get()),
        Node::C(no) => (false, no.get()),
    }
}

// Four clean-up nodes.
fn four_nodes(rt: &impl AllocGlobal) -> Result<Seq<Node>, Fail> {
    let mut nodes = Seq::new(rt.alloc());
    for no in 1..5 {
        nodes.push(Node::C(number(no)?))?;
    }
    Ok(nodes)
}

// Their graph, with an edge that stands twice.
fn four(rt: &impl AllocGlobal) -> Result<TravGraph, Fail> {
    let nodes = four_nodes(rt)?;
    let mut edges = Seq::new(rt.alloc());
    for edge in [(3, 1), (0, 1), (2, 1), (0, 1), (0, 3)] {
        edges.push(edge)?;
    }
    Ok(TravGraph { nodes, edges })
}

#[test]
fn reads_what_stands_beside_a_node(rt: HostRuntime) -> Result<(), Fail> {
    let graph = four(&rt)?;
    assert_eq!(rt; graph.nodes.len(), 4);
    assert_eq!(rt; graph.preds(1)?.as_slice(), [0, 2, 3].as_slice());
    assert_eq!(rt; graph.succs(0)?.as_slice(), [1, 3].as_slice());
    assert_eq!(rt; graph.leaves()?.as_slice(), [0, 2].as_slice());
    Ok(())
}

#[test]
fn reads_what_stands_before_each_node(rt: HostRuntime) -> Result<(), Fail> {
    let all = four(&rt)?.all_preds()?;
    assert_eq!(rt; all.len(), 4);
    assert_eq!(rt; all.as_slice()[1].as_slice(), [0, 2, 3].as_slice());
    assert_eq!(rt; all.as_slice()[3].as_slice(), [0].as_slice());
    Ok(())
}

#[test]
fn graphs_are_copied(rt: HostRuntime) -> Result<(), Fail> {
    let graph = four(&rt)?;
    assert!(rt; graph.copy()?.equals(&graph));
    Ok(())
}

#[test]
fn briefs_are_compared(rt: HostRuntime) -> Result<(), Fail> {
    let mut brief = RowBrief {
        no: number(1)?,
        name: name_of(&rt, b'a')?,
        requires_: Seq::new(rt.alloc()),
        replaces: None,
    };
    assert!(rt; brief.copy()?.equals(&brief));
    let same = brief.copy()?;
    brief.replaces = Some(number(2)?);
    assert!(rt; !same.equals(&brief));
    Ok(())
}
