//! `Vertex`, `Triple` and `Update`: what a graph holds, and how it changes.
ghost use Rattle.std.specs.Prelude.{◌≡◌, IfOk};

use crate::labels::Labels;
use crate::text::Text;
use std::alloc::AllocError;

/// A vertex of a graph: its id and its labels.
#[derive(Drop)]
pub struct Vertex {
    pub id: u32,
    pub labels: Labels,
}

/// An edge of a graph, from the vertex `src` to the vertex `dst`, with its label.
///
/// Triples are ordered by source, then label, then target.
#[derive(PartialEq, Eq, PartialOrd, Ord, Drop)]
pub struct Triple {
    pub src: u32,
    pub label: Text,
    pub dst: u32,
}

impl Triple {
    /// An equal triple, or `AllocError` where memory is wanting.
    pub fn copy(&self) -> Result<Triple, AllocError>
        ensures { IfOk result (λ triple. triple ≡ self.now) }
    {
        let label = self.label.copy()?;
        Ok(Triple {
            src: self.src,
            label,
            dst: self.dst,
        })
    }
}

/// A change of a graph by one vertex or one triple.
#[derive(Drop)]
pub enum Update {
    /// Adds a vertex with these labels.
    AddVertex { id: u32, labels: Labels },
    /// Removes a vertex, which may be no triple's end.
    DropVertex { id: u32 },
    /// Adds a triple, whose ends have to be vertices.
    AddEdge(Triple),
    /// Removes a triple.
    DropEdge(Triple),
}
