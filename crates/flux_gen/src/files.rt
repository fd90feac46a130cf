//! The files of a number.
ghost use Rattle.std.specs.Prelude.{◌≡◌, ◌≤◌, ◌^◌, IfOk};
ghost use Rattle.flux_model.specs.Generated.{generated};

use crate::draws::Draws;
use crate::graph::{write_edges, write_vertices};
use crate::updates::write_updates;
use std::alloc::{AllocError, Global};
use std::marker::Model;

/// How many vertices and edges the graph file has, and how many updates there are.
#[derive(Clone, Copy, Debug, PartialEq, Eq)]
pub struct Sizes {
    pub vertices: u64,
    pub edges: u64,
    pub updates: u64,
}

impl Sizes {
    /// The sizes of the demonstration.
    pub fn standard() -> Sizes
        ensures { result ≡ record { vertices = 20000; edges = 60000; updates = 5000 } }
    {
        Sizes {
            vertices: 20000,
            edges: 60000,
            updates: 5000,
        }
    }
}

/// The files that a number gives.
#[derive(Drop)]
pub struct Made {
    graph: Vec<u8>,
    patterns: Vec<u8>,
    updates: Vec<u8>,
}

impl Model for Made {
    ghost use Rattle.flux_model.specs.Generated.{Files};

    ghost Value = { Files };

    ghost view = { λ m. record { graph = m.graph.items; patterns = m.patterns.items; updates = m.updates.items } };
}

impl Made {
    /// The graph file.
    pub fn graph(&self) -> &[u8]
        ensures { result.now ≡ self.now.graph }
    {
        self.graph.as_slice()
    }

    /// The pattern file.
    pub fn patterns(&self) -> &[u8]
        ensures { result.now ≡ self.now.patterns }
    {
        self.patterns.as_slice()
    }

    /// The updates.
    pub fn updates(&self) -> &[u8]
        ensures { result.now ≡ self.now.updates }
    {
        self.updates.as_slice()
    }
}

/// Makes the files of a number: the graph file, the pattern file and the updates, byte for byte.
pub fn make(alloc: Global, number: u64, sizes: &Sizes) -> Result<Made, AllocError>
    requires vertices { (1 ≤ sizes.now.vertices) × (sizes.now.vertices ≤ 2 ^ 20) }
    requires edges { (1 ≤ sizes.now.edges) × (sizes.now.edges ≤ 2 ^ 22) }
    requires updates { sizes.now.updates ≤ 2 ^ 20 }
    ensures { IfOk result (λ made. made ≡ generated number sizes.now.vertices sizes.now.edges sizes.now.updates) }
{
    let vertices = sizes.vertices as u32;
    let mut draws = Draws::new(number);
    let mut graph = Vec::new(alloc);
    let mut drawn = Vec::new(alloc);
    let mut updates = Vec::new(alloc);
    write_vertices(vertices, &mut draws, &mut graph)?;
    write_edges(
        vertices,
        sizes.edges as u32,
        &mut draws,
        &mut drawn,
        &mut graph,
    )?;
    write_updates(
        vertices,
        sizes.updates as u32,
        &mut draws,
        &mut drawn,
        &mut updates,
    )?;
    Ok(Made {
        graph,
        patterns: pattern_file(alloc)?,
        updates,
    })
}

ghost use Rattle.std.specs.Prelude.{flat_map, ◌++◌, ◌∷◌, []};
ghost use Rattle.flux_model.specs.Generated.{pattern_lines};

/// The pattern file, which is always the same.
fn pattern_file(alloc: Global) -> Result<Vec<u8>, AllocError>
    ensures { IfOk result (λ file. file.items ≡ flat_map (λ line. line ++ 10 ∷ []) pattern_lines) }
{
    let star = b"p star hom\nv 0 L0\nv 1 L1\nv 2 L0\nv 3\ne 0 1 r0\ne 0 2 r1\ne 3 0 r2\n";
    let walk = b"p walk iso\nv 0\nv 1\nv 2\nv 3\nv 4\ne 0 1 r0\ne 1 2 r1\ne 2 3 r2\ne 3 4 r3\n";
    let fork =
        b"p fork hom\nv 0 L0\nv 1 L1\nv 2\nv 3 L0\nv 4\nv 5 L1\ne 0 1 r0\ne 0 2 r1\ne 2 3 r2\ne 4 2 r3\ne 3 5 r0\n";
    let ring = b"p ring hom\nv 0\nv 1\nv 2\nv 3\ne 0 1 r0\ne 1 2 r1\ne 2 3 r0\ne 3 0 r1\n";
    let mut file = Vec::from_slice(alloc, star)?;
    file.extend_from_slice(walk)?;
    file.extend_from_slice(fork)?;
    file.extend_from_slice(ring)?;
    Ok(file)
}
