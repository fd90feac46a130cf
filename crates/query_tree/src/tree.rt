//! `QueryTree`: the spanning tree of a pattern.
ghost use Rattle.std.specs.Prelude.{◌≡◌, ◌≢◌, ◌<◌, ◌≤◌, ◌↔◌, Some, None, IfOk, MatchOption};
ghost use Rattle.std.specs.Prelude.{length, slice_get, slice_index};
ghost use Rattle.flux_model.specs.Pattern.{HasEnds, vertex_count};
ghost use Rattle.flux_model.specs.Tree.{link_at, is_child, children, non_tree, root_of, tree_for, IsTree, BelongsTo};
ghost use Rattle.query_tree.specs.Choice.{lower_end};

use crate::growth::Growth;
use crate::numbers::{least_by, numbers_where, place_of};
use flux_model::{Cards, Pattern, PatternEdge, TreeLink};
use std::alloc::{AllocError, Global};
use std::marker::Model;

/// A spanning tree of a pattern: a root, and for each of the other vertices, 31 at most, the link that it hangs by.
#[derive(Drop)]
pub struct QueryTree {
    grown: Growth,
    children: Vec<Vec<usize>>,
    non_tree: Vec<usize>,
}

impl Model for QueryTree {
    ghost use Rattle.flux_model.specs.Tree.{QueryTree as Tree};
    ghost use Rattle.query_tree.specs.Lists.{KeepsLists};

    ghost Value = { Tree };

    ghost view = { λ t. t.grown };

    ghost invariant = { λ t. KeepsLists t.grown t.children.items t.non_tree.items };
}

impl QueryTree {
    /// The tree of the pattern that these cards choose.
    ///
    /// Its root is the end of lower card of the edge of least card, and it grows by the edge of least card that has
    /// one end in it, until it has every vertex. Of equal cards the first number is taken. There has to be a card for each
    /// edge of the pattern and for each vertex. `AllocError` where no memory is left.
    pub fn choose(alloc: Global, pattern: &Pattern, cards: &Cards) -> Result<QueryTree, AllocError>
        requires edges { length cards.now.edges ≡ length pattern.now.edges }
        requires vertices { length cards.now.vertices ≡ vertex_count pattern.now }
        ensures tree { IfOk result (λ tree. tree ≡ tree_for pattern.now cards.now.edges cards.now.vertices) }
        ensures belongs { IfOk result (λ tree. BelongsTo pattern.now tree) }
    {
        let count = pattern.vertex_count();
        let root = root_of(pattern, cards);
        let mut growth = Growth::new(alloc, root, count, pattern.edge_count())?;
        for _ in 0..count {
            growth.grow(pattern, cards.edges());
        }
        finish(alloc, growth)
    }

    /// How many vertices there are, 1 to 32.
    pub fn vertex_count(&self) -> usize
        ensures { result ≡ length self.now.links }
    {
        self.grown.vertex_count()
    }

    /// The root, from which every vertex hangs. With it there are at most 32.
    pub fn root(&self) -> usize
        ensures root { result ≡ self.now.root }
        ensures tree { IsTree self.now }
        ensures few { length self.now.links ≤ 32 }
    {
        self.grown.root()
    }

    /// The link that vertex `u` hangs by, which every vertex but the root has; `u` has to be below `vertex_count`.
    pub fn parent(&self, u: usize) -> Option<TreeLink>
        requires { u < length self.now.links }
        ensures link { result ≡ link_at self.now u }
        ensures root { (result ≡ None) ↔ (u ≡ self.now.root) }
    {
        self.grown.link(u)
    }

    /// Whether vertex `u` hangs from vertex `parent`; a number that is no vertex hangs from none.
    pub fn is_child(&self, parent: usize, u: usize) -> bool
        ensures { result ≡ is_child self.now parent u }
    {
        self.grown.is_child(parent, u)
    }

    /// The vertices that hang from vertex `u`, ascending; `u` has to be below `vertex_count`.
    pub fn children(&self, u: usize) -> &[usize]
        requires { u < length self.now.links }
        ensures { result.now ≡ children self.now u }
    {
        self.children[u].as_slice()
    }

    /// The place of vertex `u` among its parent's children, counted from 0; `u` has to be below `vertex_count`, and not the root.
    pub fn child_number(&self, u: usize) -> usize
        requires vertex { u < length self.now.links }
        requires not_root { u ≢ self.now.root }
        ensures { MatchOption (link_at self.now u) ⊥ (λ link. slice_get (children self.now link.parent) result ≡ Some u) }
    {
        let link = self.grown.link(u).unwrap();
        place_of(self.children(link.parent), u).unwrap()
    }

    /// The numbers of the pattern's edges that no link names, ascending.
    pub fn non_tree(&self) -> &[usize]
        ensures { result.now ≡ non_tree self.now }
    {
        self.non_tree.as_slice()
    }
}

/// The end of lower card of the edge of least card; vertex 0 where the pattern has no edge.
fn root_of(pattern: &Pattern, cards: &Cards) -> usize
    requires edges { length cards.now.edges ≡ length pattern.now.edges }
    requires vertices { length cards.now.vertices ≡ vertex_count pattern.now }
    ensures { result ≡ root_of pattern.now cards.now.edges cards.now.vertices }
{
    match least_by(cards.edges(), |_| true) {
        Some(i) => lower_end(pattern.edge(i), cards.vertices()),
        None => 0,
    }
}

/// The end of the edge that has the lower card, of equals the first.
fn lower_end(edge: &PatternEdge, cards: &[u64]) -> usize
    requires { HasEnds (length cards.now) edge.now }
    ensures { result ≡ lower_end cards.now edge.now }
{
    least_by(cards, |u| u == edge.tail || u == edge.head).unwrap()
}

/// The tree with the children of each vertex and the edges that it leaves out.
fn finish(alloc: Global, grown: Growth) -> Result<QueryTree, AllocError>
    requires tree { IsTree grown }
    requires few { length grown.links ≤ 32 }
    ensures { IfOk result (λ tree. tree ≡ grown) }
{
    let mut children = Vec::new(alloc);
    for u in 0..grown.vertex_count() {
        children.push(children_of(alloc, &grown, u)?)?;
    }
    let non_tree = numbers_where(alloc, grown.edge_count(), |i| !grown.has_edge(i))?;
    Ok(QueryTree {
        grown,
        children,
        non_tree,
    })
}

/// The vertices that hang from vertex `parent`, ascending.
fn children_of(alloc: Global, grown: &Growth, parent: usize) -> Result<Vec<usize>, AllocError>
    ensures { IfOk result (λ numbers. numbers.items ≡ children grown.now parent) }
{
    numbers_where(alloc, grown.vertex_count(), |u| grown.is_child(parent, u))
}
