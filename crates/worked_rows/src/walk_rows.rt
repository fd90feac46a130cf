//! Rows of a vertex, walked by hand.
ghost use Rattle.flux_model.specs.Tree.{BelongsTo};

use flux_model::{Pattern, Steps, Tally, Text, TreeLink};
use graph_rows::{Branch, Direction, GraphRow, WholeRow};
use graph_traits::{HoldGraph, ReadGraph};
use query_tree::QueryTree;
use std::test::Fail;
use worked_parts::shapes::CHAIN;
use worked_parts::{first, graph_of, patterns_of, tree_of};

/// The graph whose rows are walked.
const GRAPH: &str = "v 1\nv 2\nv 3\ne 1 2 r\ne 3 1 r\ne 1 3 s";

/// The only end that the row of vertex 1 has for the label, and how many steps the whole row takes.
fn only_end<G: ReadGraph<Tally>>(
    graph: &G,
    label: &Text,
    direction: Direction,
) -> Option<(u32, u64)> {
    if !graph.has_vertex(1, &mut Steps::new(Tally::new())) {
        return None;
    }
    let row = GraphRow {
        vertex: 1,
        direction,
        label,
        label_number: graph.label_number(label),
    };
    let mut steps = Steps::new(Tally::new());
    let (end, next) = row.next(graph, row.first(graph), &mut steps)?;
    if row.next(graph, next, &mut steps).is_some() {
        return None;
    }
    Some((end, steps.ledger().read()))
}

/// The other end of the only triple that ends at vertex 1, and how many steps the whole row takes.
fn only_turn<G: ReadGraph<Tally>>(graph: &G) -> Option<(u32, u64)> {
    if !graph.has_vertex(1, &mut Steps::new(Tally::new())) {
        return None;
    }
    let row = WholeRow {
        vertex: 1,
        direction: Direction::In,
    };
    let mut steps = Steps::new(Tally::new());
    let turn = row.next(graph, row.first(graph), &mut steps)?;
    if row.next(graph, turn.next, &mut steps).is_some() {
        return None;
    }
    Some((turn.other, steps.ledger().read()))
}

/// Whether the rows of vertex 1, for the label `r` and whole, are as they should be.
fn are_rows<G: ReadGraph<Tally>>(graph: &G, label: &Text) -> bool {
    only_end(graph, label, Direction::Out) == Some((2, 3))
        && only_end(graph, label, Direction::In) == Some((3, 2))
        && only_turn(graph) == Some((3, 2))
}

#[test]
fn a_row_is_walked_for_one_label(rt: HostRuntime) -> Result<(), Fail> {
    let graph = graph_of(rt.alloc(), GRAPH)?;
    let label = Text::from_bytes(rt.alloc(), b"r")?;
    assert!(rt; are_rows(&graph, &label));
    Ok(())
}

/// A chain with a loop at its end.
const ROUND: &str = "p round hom\nv 0\nv 1\nv 2\ne 0 1 r\ne 2 2 r\ne 1 2 r";

/// An edge of this pattern, one of its ends, and the direction in which the edge leads there.
const DIRECTIONS: [(usize, usize, Direction); 3] = [
    (0, 1, Direction::Out),
    (0, 0, Direction::In),
    (1, 2, Direction::Out),
];

/// How many of these edges, from the first on, lead so.
fn count_leading(pattern: &Pattern, rows: &[(usize, usize, Direction)]) -> usize {
    for i in 0..rows.len() {
        let (edge, u, direction) = rows[i];
        if edge >= pattern.edge_count() || Direction::to(pattern.edge(edge), u) != direction {
            return i;
        }
    }
    rows.len()
}

#[test]
fn an_edge_leads_to_its_ends(rt: HostRuntime) -> Result<(), Fail> {
    let patterns = patterns_of(rt.alloc(), ROUND)?;
    let pattern = first(&patterns)?;
    assert_eq!(rt; count_leading(pattern, &DIRECTIONS), DIRECTIONS.len());
    Ok(())
}

/// A vertex of a chain with the root 1, the edge that it hangs by, its place among the children, and the direction.
type Branching = (usize, usize, usize, Direction);

const BRANCHES: [Branching; 2] = [(0, 0, 0, Direction::In), (2, 1, 1, Direction::Out)];

/// Whether the branch of a vertex is this, and leads to the row of the id 5 in that direction.
fn branches_as<G: HoldGraph>(
    graph: &G,
    pattern: &Pattern,
    tree: &QueryTree,
    branching: Branching,
) -> bool
    requires { BelongsTo pattern.now tree.now }
{
    let (u, edge, number, direction) = branching;
    if u >= tree.vertex_count() || u == tree.root() {
        return false;
    }
    let branch = Branch::of(graph, pattern, tree, u);
    let row = branch.row(5);
    branch.child == u
        && branch.link == (TreeLink { parent: 1, edge })
        && branch.number == number
        && branch.direction == direction
        && row.vertex == 5
        && row.direction == direction
}

/// How many branches, from the first on, are these.
fn count_branches<G: HoldGraph>(
    graph: &G,
    pattern: &Pattern,
    tree: &QueryTree,
    rows: &[Branching],
) -> usize
    requires { BelongsTo pattern.now tree.now }
{
    for i in 0..rows.len() {
        if !branches_as(graph, pattern, tree, rows[i]) {
            return i;
        }
    }
    rows.len()
}

#[test]
fn a_branch_leads_down_from_the_root(rt: HostRuntime) -> Result<(), Fail> {
    let graph = graph_of(rt.alloc(), "v 1\nv 2\ne 1 2 r")?;
    let patterns = patterns_of(rt.alloc(), CHAIN)?;
    let pattern = first(&patterns)?;
    let tree = tree_of(rt.alloc(), pattern, &[1, 0], &[1, 1, 1])?;
    let right = count_branches(&graph, pattern, &tree, &BRANCHES);
    assert_eq!(rt; right, BRANCHES.len());
    Ok(())
}
