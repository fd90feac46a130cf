//! `Cards`: how often the edges and the vertices of a pattern fit a graph.
ghost use Rattle.std.specs.Prelude.{◌≡◌};

use std::marker::Model;

/// How many triples of a graph fit each edge of a pattern, and how many of its vertices fit each vertex of the pattern.
#[derive(Drop)]
pub struct Cards {
    edges: Vec<u64>,
    vertices: Vec<u64>,
}

impl Model for Cards {
    ghost use Rattle.flux_model.specs.Tree.{CardLists};

    ghost Value = { CardLists };

    ghost view = { λ c. record { edges = c.edges.items; vertices = c.vertices.items } };
}

impl Cards {
    /// The cards of these two lists, each in the order of the pattern's numbers.
    pub fn new(edges: Vec<u64>, vertices: Vec<u64>) -> Cards
        ensures { result ≡ record { edges = edges.items; vertices = vertices.items } }
    {
        Cards { edges, vertices }
    }

    /// For each pattern edge, how many triples fit it.
    pub fn edges(&self) -> &[u64]
        ensures { result.now ≡ self.now.edges }
    {
        self.edges.as_slice()
    }

    /// For each pattern vertex, how many vertices of the graph fit it.
    pub fn vertices(&self) -> &[u64]
        ensures { result.now ≡ self.now.vertices }
    {
        self.vertices.as_slice()
    }
}
