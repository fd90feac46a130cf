//! The lines of the graph file.
ghost use Rattle.std.specs.Prelude.{◌≡◌, ◌≤◌, ◌+◌, ◌++◌, length, flat_map, OnOk};
ghost use Rattle.flux_model.specs.GraphText.{vertex_line, triple_line};
ghost use Rattle.flux_model.specs.Generated.{next, steps, after_triple, vertices_from, triples_from};
ghost use Rattle.flux_gen.specs.Drawn.{edge_triples};

use crate::draws::{Draws, Edge, draw_edge};
use crate::lines::{write_edge, write_vertex};
use std::alloc::AllocError;

/// Writes a line for each vertex, by one draw each.
pub(crate) fn write_vertices(
    count: u32,
    draws: &mut Draws,
    out: &mut Vec<u8>,
) -> Result<(), AllocError>
    ensures text { OnOk result (out.new.items ≡ out.old.items ++ flat_map vertex_line (vertices_from count 0 draws.old.state)) }
    ensures state { OnOk result (draws.new.state ≡ steps next count draws.old.state) }
{
    for id in 0..count {
        let label = draws.pick(2);
        write_vertex(id, label, out)?;
    }
    Ok(())
}

/// Draws edges, writes a line for each and keeps them.
pub(crate) fn write_edges(
    vertices: u32,
    count: u32,
    draws: &mut Draws,
    drawn: &mut Vec<Edge>,
    out: &mut Vec<u8>,
) -> Result<(), AllocError>
    requires { 1 ≤ vertices }
    ensures text { OnOk result (out.new.items ≡ out.old.items ++ flat_map triple_line (triples_from vertices count draws.old.state)) }
    ensures edges { OnOk result (edge_triples drawn.new.items
        ≡ edge_triples drawn.old.items ++ triples_from vertices count draws.old.state) }
    ensures state { OnOk result (draws.new.state ≡ steps after_triple count draws.old.state) }
    ensures many { OnOk result (length drawn.new.items ≡ length drawn.old.items + count) }
{
    for _i in 0..count {
        let edge = draw_edge(vertices, draws);
        write_edge(&edge, out)?;
        drawn.push(edge)?;
    }
    Ok(())
}
