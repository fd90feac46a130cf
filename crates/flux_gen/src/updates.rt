//! The updates.
ghost use Rattle.std.specs.Prelude.{◌≡◌, ◌≤◌, ◌<◌, ◌+◌, ◌^◌, ◌++◌, length, flat_map, OnOk};
ghost use Rattle.flux_model.specs.Generated.{turn, turn_in, vertex_update, after_vertex, updates_from, update_line};
ghost use Rattle.flux_gen.specs.Drawn.{edge_triples, Took};

use crate::draws::{Draws, Edge, draw_edge};
use crate::lines::{write_edge, write_removed_edge, write_removed_vertex, write_vertex};
use std::alloc::AllocError;

/// Draws updates and writes a line for each. A new edge is kept among the drawn ones; a removed one stays there.
pub(crate) fn write_updates(
    vertices: u32,
    count: u32,
    draws: &mut Draws,
    drawn: &mut Vec<Edge>,
    out: &mut Vec<u8>,
) -> Result<(), AllocError>
    requires vertices { (1 ≤ vertices) × (vertices ≤ 2 ^ 20) }
    requires some { 1 ≤ length drawn.old.items }
    requires few { length drawn.old.items + count < 2 ^ 32 }
    ensures { OnOk result (out.new.items ≡ out.old.items
        ++ flat_map update_line (updates_from vertices count (edge_triples drawn.old.items) draws.old.state)) }
{
    for _i in 0..count {
        write_turn(vertices, draws, drawn, out)?;
    }
    Ok(())
}

/// Draws one update and writes its line.
fn write_turn(
    vertices: u32,
    draws: &mut Draws,
    drawn: &mut Vec<Edge>,
    out: &mut Vec<u8>,
) -> Result<(), AllocError>
    requires vertices { (1 ≤ vertices) × (vertices ≤ 2 ^ 20) }
    requires some { 1 ≤ length drawn.old.items }
    requires few { length drawn.old.items < 2 ^ 32 }
    ensures took { OnOk result (Took (turn vertices (edge_triples drawn.old.items) draws.old.state)
        out.old.items out.new.items drawn.new.items draws.new.state) }
    ensures more { length drawn.old.items ≤ length drawn.new.items }
    ensures few { length drawn.new.items ≤ length drawn.old.items + 1 }
{
    let choice = draws.pick(10);
    if choice <= 5 {
        add_edge(vertices, draws, drawn, out)
    } else if choice <= 8 {
        let place = draws.pick(drawn.len() as u32) as usize;
        write_removed_edge(&drawn[place], out)
    } else {
        change_vertex(vertices, draws, out)
    }
}

/// A new edge, which is kept.
fn add_edge(
    vertices: u32,
    draws: &mut Draws,
    drawn: &mut Vec<Edge>,
    out: &mut Vec<u8>,
) -> Result<(), AllocError>
    requires { 1 ≤ vertices }
    ensures took { OnOk result (Took (turn_in vertices (edge_triples drawn.old.items) draws.old.state)
        out.old.items out.new.items drawn.new.items draws.new.state) }
    ensures more { length drawn.old.items ≤ length drawn.new.items }
    ensures few { length drawn.new.items ≤ length drawn.old.items + 1 }
{
    let edge = draw_edge(vertices, draws);
    write_edge(&edge, out)?;
    drawn.push(edge)?;
    Ok(())
}

/// A vertex above those of the graph file, which is added or removed.
fn change_vertex(vertices: u32, draws: &mut Draws, out: &mut Vec<u8>) -> Result<(), AllocError>
    requires { vertices ≤ 2 ^ 20 }
    ensures text { OnOk result (out.new.items ≡ out.old.items ++ update_line (vertex_update vertices draws.old.state)) }
    ensures state { OnOk result (draws.new.state ≡ after_vertex draws.old.state) }
{
    let id = vertices + draws.pick(vertices / 10 + 1);
    if draws.pick(2) == 0 {
        let label = draws.pick(2);
        write_vertex(id, label, out)
    } else {
        write_removed_vertex(id, out)
    }
}
