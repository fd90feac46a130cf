//! `Growth`: a tree that grows by one link at a time.
ghost use Rattle.std.specs.Prelude.{◌≡◌, ◌<◌, None, IfOk, length, replicate, slice_index};
ghost use Rattle.flux_model.specs.Pattern.{HasEnds, vertex_count};
ghost use Rattle.flux_model.specs.Tree.{edge_at, link_at, is_child, is_placed, crosses, crossing, least, with_link, next_tree};
ghost use Rattle.query_tree.specs.Lists.{has_edge};

use crate::numbers::least_by;
use flux_model::{Pattern, PatternEdge, TreeLink};
use std::alloc::{AllocError, Global};
use std::marker::Model;

/// The part of a tree that is there so far. A vertex is placed where it is the root or has a link.
#[derive(Drop)]
pub struct Growth {
    root: usize,
    links: Vec<Option<TreeLink>>,
    edge_count: usize,
}

impl Model for Growth {
    ghost use Rattle.flux_model.specs.Tree.{QueryTree};

    ghost Value = { QueryTree };

    ghost view = { λ g. record { root = g.root; links = g.links.items; edge_count = g.edge_count } };
}

impl Growth {
    /// The root alone is placed, of `count` vertices.
    pub fn new(
        alloc: Global,
        root: usize,
        count: usize,
        edge_count: usize,
    ) -> Result<Growth, AllocError>
        ensures { IfOk result (λ g. g ≡ record { root = root; links = replicate count None; edge_count = edge_count }) }
    {
        let links = vec![in alloc; None; count]?;
        Ok(Growth {
            root,
            links,
            edge_count,
        })
    }

    /// The root.
    pub fn root(&self) -> usize
        ensures { result ≡ self.now.root }
    {
        self.root
    }

    /// How many vertices there are, placed or not.
    pub fn vertex_count(&self) -> usize
        ensures { result ≡ length self.now.links }
    {
        self.links.len()
    }

    /// How many edges the pattern has.
    pub fn edge_count(&self) -> usize
        ensures { result ≡ self.now.edge_count }
    {
        self.edge_count
    }

    /// The link of vertex `u`, if it has one.
    pub fn link(&self, u: usize) -> Option<TreeLink>
        requires { u < length self.now.links }
        ensures { result ≡ link_at self.now u }
    {
        self.links[u]
    }

    /// Whether vertex `u` hangs from vertex `parent`, which no number beyond the vertices does.
    pub fn is_child(&self, parent: usize, u: usize) -> bool
        ensures { result ≡ is_child self.now parent u }
    {
        matches!(self.links.get(u), Some(Some(link)) if link.parent == parent)
    }

    /// Whether a link names edge `i`.
    pub fn has_edge(&self, i: usize) -> bool
        ensures { result ≡ has_edge self.now i }
    {
        self.links
            .iter()
            .any(|link| link.is_some_and(|l| l.edge == i))
    }

    /// Whether vertex `u` is the root or has a link.
    fn is_placed(&self, u: usize) -> bool
        requires { u < length self.now.links }
        ensures { result ≡ is_placed self.now u }
    {
        u == self.root || self.links[u].is_some()
    }

    /// Whether exactly one end of the edge is placed.
    fn crosses(&self, edge: &PatternEdge) -> bool
        requires { HasEnds (length self.now.links) edge.now }
        ensures { result ≡ crosses self.now edge.now }
    {
        self.is_placed(edge.tail) != self.is_placed(edge.head)
    }

    /// The edge of the least card that has exactly one end placed, of equals the first.
    fn next_edge(&self, pattern: &Pattern, cards: &[u64]) -> Option<usize>
        requires vertices { length self.now.links ≡ vertex_count pattern.now }
        requires edges { length cards.now ≡ length pattern.now.edges }
        ensures { result ≡ least (slice_index cards.now) (crossing pattern.now self.now) }
    {
        least_by(cards, |i| self.crosses(pattern.edge(i)))
    }

    /// Hangs the end of edge `i` that is not placed from the other end.
    fn hang(&mut self, pattern: &Pattern, i: usize)
        requires vertices { length self.old.links ≡ vertex_count pattern.now }
        requires edge { i < length pattern.now.edges }
        ensures { self.new ≡ with_link pattern.now self.old i }
    {
        let edge = pattern.edge(i);
        if self.is_placed(edge.tail) {
            self.links[edge.head] = Some(TreeLink {
                parent: edge.tail,
                edge: i,
            });
        } else {
            self.links[edge.tail] = Some(TreeLink {
                parent: edge.head,
                edge: i,
            });
        }
    }

    /// One more link, by the edge of the least card that has exactly one end placed; nothing where no edge has.
    pub fn grow(&mut self, pattern: &Pattern, cards: &[u64])
        requires vertices { length self.old.links ≡ vertex_count pattern.now }
        requires edges { length cards.now ≡ length pattern.now.edges }
        ensures tree { self.new ≡ next_tree pattern.now cards.now self.old }
        ensures vertices { length self.new.links ≡ length self.old.links }
    {
        if let Some(i) = self.next_edge(pattern, cards) {
            self.hang(pattern, i);
        }
    }
}
