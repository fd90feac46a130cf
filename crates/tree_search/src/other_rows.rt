//! The rows by which a vertex can be reached from the ids of neighbours that are not its anchor.
ghost use Rattle.std.specs.Prelude.{◌≡◌, ◌<◌, length, IsTrue, IfSome};
ghost use Rattle.std.specs.Option.{unwrap_or};
ghost use Rattle.flux_model.specs.Graph.{has_vertex};
ghost use Rattle.match_order.specs.Whole.{vertices};
ghost use Rattle.nontree_test.specs.Numbered.{AreNumbersOf};
ghost use Rattle.tree_search.specs.Given.{IsReady, IsGiven, nth_vertex};
ghost use Rattle.tree_search.specs.Ways.{IsWay, IsShorterWay, turns, end_beside};

use crate::candidates::Shortest;
use crate::search::Search;
use flux_model::{Partial, PatternEdge};
use graph_rows::{Direction, GraphRow};
use graph_traits::HoldGraph;

/// The shortest row of the id of a neighbour by an edge that the tree leaves out, which leads to the vertex at place `k`, where
/// it is shorter than the row `than`, that of the anchor's id. It takes no step.
pub fn shortest_row<'a, G: HoldGraph>(
    search: &'a Search<'_, '_, G>,
    k: usize,
    partial: &Partial,
    than: &GraphRow<'_>,
) -> Shortest<'a>
    requires ready { IsReady search.now.pattern.now search.now.tree.now search.now.dcg.now (G.graph search.now.graph.now) search.now.order }
    requires numbers { AreNumbersOf (G.label_text search.now.graph.now) (G.graph search.now.graph.now)
        search.now.pattern.now search.now.numbers }
    requires few { k < length (vertices search.now.order) }
    requires given { IsGiven search.now.pattern.now search.now.tree.now (G.graph search.now.graph.now) search.now.order k partial.now }
    requires stands { IsTrue (has_vertex (G.graph search.now.graph.now) than.now.vertex) }
    ensures row { IfSome result.row (IsShorterWay (G.label_text search.now.graph.now) search.now.pattern.now
        (G.graph search.now.graph.now) partial.now (nth_vertex search.now.order k) than.now) }
    ensures turns { result.turns ≡ turns (G.graph search.now.graph.now) (unwrap_or result.row than.now) }
{
    let mut shortest = Shortest {
        row: None,
        turns: turns(than, search.graph),
    };
    for i in search.tree.non_tree() {
        if let Some(row) = row_by(search, k, partial, *i) {
            let count = turns(&row, search.graph);
            if count < shortest.turns {
                shortest = Shortest {
                    row: Some(row),
                    turns: count,
                };
            }
        }
    }
    shortest
}

/// How many triples the row has, of any label. It takes no step.
fn turns<G: HoldGraph>(row: &GraphRow<'_>, graph: &G) -> u64
    requires { IsTrue (has_vertex (G.graph graph.now) row.now.vertex) }
    ensures { result ≡ turns (G.graph graph.now) row.now }
{
    match row.direction {
        Direction::Out => graph.out_degree(row.vertex),
        Direction::In => graph.in_degree(row.vertex),
    }
}

/// The row of the id of the other end of edge `i`, where the vertex at place `k` is one end and the other has an id.
fn row_by<'a, G: HoldGraph>(
    search: &'a Search<'_, '_, G>,
    k: usize,
    partial: &Partial,
    i: usize,
) -> Option<GraphRow<'a>>
    requires ready { IsReady search.now.pattern.now search.now.tree.now search.now.dcg.now (G.graph search.now.graph.now) search.now.order }
    requires numbers { AreNumbersOf (G.label_text search.now.graph.now) (G.graph search.now.graph.now)
        search.now.pattern.now search.now.numbers }
    requires few { k < length (vertices search.now.order) }
    requires given { IsGiven search.now.pattern.now search.now.tree.now (G.graph search.now.graph.now) search.now.order k partial.now }
    requires edge { i < length search.now.pattern.now.edges }
    ensures { IfSome result (IsWay (G.label_text search.now.graph.now) search.now.pattern.now (G.graph search.now.graph.now)
        partial.now (nth_vertex search.now.order k)) }
{
    let w = search.order.vertex(k);
    let edge = search.pattern.edge(i);
    let beside = end_beside(edge, w)?;
    let vertex = partial.get(beside)?;
    Some(GraphRow {
        vertex,
        direction: Direction::to(edge, w),
        label: &edge.label,
        label_number: search.numbers[i],
    })
}

/// The other end of an edge that has `w` as an end.
fn end_beside(edge: &PatternEdge, w: usize) -> Option<usize>
    ensures { result ≡ end_beside edge.now w }
{
    if edge.head == w {
        Some(edge.tail)
    } else if edge.tail == w {
        Some(edge.head)
    } else {
        None
    }
}
