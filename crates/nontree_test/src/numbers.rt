//! The numbers of a pattern's labels in a store.
ghost use Rattle.nontree_test.specs.Numbered.{AreNumbersOf};

use flux_model::Pattern;
use graph_traits::HoldGraph;

/// A pattern has at most so many edges.
const MOST: usize = 64;

/// The numbers that the graph has for the labels of the pattern's edges, edge by edge, and none behind them.
///
/// They serve while the graph is unchanged. It takes no memory.
pub fn label_numbers<G: HoldGraph>(pattern: &Pattern, graph: &G) -> [Option<u32>; MOST]
    ensures { AreNumbersOf (G.label_text graph.now) (G.graph graph.now) pattern.now result }
{
    // For the proof: a pattern has no more edges than that.
    let _count = pattern.vertex_count();
    let mut numbers = [None; MOST];
    for i in 0..pattern.edge_count() {
        numbers[i] = graph.label_number(&pattern.edge(i).label);
    }
    numbers
}
