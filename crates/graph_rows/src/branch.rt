//! `Branch`: the tree edge that a pattern vertex hangs by.
ghost use Rattle.std.specs.Prelude.{◌≡◌, ◌≢◌, ◌<◌, length};
ghost use Rattle.flux_model.specs.Tree.{BelongsTo};
ghost use Rattle.graph_traits.specs.Numbers.{IsNumberOf};
ghost use Rattle.graph_rows.specs.Branches.{IsBranchOf, row_along};

use crate::direction::Direction;
use crate::graph_row::GraphRow;
use flux_model::{Labels, Pattern, Text, TreeLink};
use graph_traits::HoldGraph;
use query_tree::QueryTree;

/// The tree edge that a pattern vertex hangs by, as it is walked down from the parent.
#[derive(Drop)]
pub struct Branch<'a> {
    /// The vertex that hangs by it.
    pub child: usize,
    /// The parent, and the number of the edge.
    pub link: TreeLink,
    /// The place of the vertex among the parent's children.
    pub number: usize,
    /// The label of the edge.
    pub label: &'a Text,
    /// The number that the graph has for the label.
    pub label_number: Option<u32>,
    /// The labels of the vertex.
    pub labels: &'a Labels,
    /// The direction in which the edge leads to the vertex.
    pub direction: Direction,
}

impl<'a> Branch<'a> {
    /// The branch that vertex `u` of the tree, which may not be the root, hangs by.
    pub fn of<G: HoldGraph>(
        graph: &G,
        pattern: &'a Pattern,
        tree: &QueryTree,
        u: usize,
    ) -> Branch<'a>
        requires belongs { BelongsTo pattern.now tree.now }
        requires vertex { u < length tree.now.links }
        requires not_root { u ≢ tree.now.root }
        ensures child { result.child ≡ u }
        ensures branch { IsBranchOf pattern.now tree.now result }
        ensures number { IsNumberOf (G.label_text graph.now) result.label.now result.label_number }
    {
        let link = tree.parent(u).unwrap();
        let edge = pattern.edge(link.edge);
        Branch {
            child: u,
            link,
            number: tree.child_number(u),
            label: &edge.label,
            label_number: graph.label_number(&edge.label),
            labels: pattern.labels(u),
            direction: Direction::to(edge, u),
        }
    }

    /// The row of `v` in which the joints to the child are found.
    pub fn row(&self, v: u32) -> GraphRow<'a>
        ensures { result ≡ row_along self.now v }
    {
        GraphRow {
            vertex: v,
            direction: self.direction,
            label: self.label,
            label_number: self.label_number,
        }
    }
}
