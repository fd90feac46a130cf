//! The test of the edges that are sent to a triple.
ghost use Rattle.std.specs.Prelude.{◌≡◌, ◌≤◌, length};
ghost use Rattle.flux_model.specs.Pattern.{HasEnds, vertex_count};
ghost use Rattle.flux_model.specs.Partial.{edge_sends, earlier};

use crate::edges::id_with;
use flux_model::{Partial, Pattern, PatternEdge, Triple};

/// Whether, with `x` for `w`, some edge of a number below `number` that has `w` as an end is sent to the triple.
///
/// There have to be so many edges, and `partial` has to have a place for each of the pattern's vertices. It takes no step.
pub fn earlier(
    pattern: &Pattern,
    number: usize,
    partial: &Partial,
    w: usize,
    x: u32,
    triple: &Triple,
) -> bool
    requires edges { number ≤ length pattern.now.edges }
    requires places { length partial.now ≡ vertex_count pattern.now }
    ensures { result ≡ earlier pattern.now number partial.now w x triple.now }
{
    for i in 0..number {
        if edge_sends(pattern.edge(i), partial, w, x, triple) {
            return true;
        }
    }
    false
}

/// Whether `w` is an end of the edge, which with `x` for `w` is sent to the triple.
fn edge_sends(edge: &PatternEdge, partial: &Partial, w: usize, x: u32, triple: &Triple) -> bool
    requires { HasEnds (length partial.now) edge.now }
    ensures { result ≡ edge_sends partial.now w x triple.now edge.now }
{
    (edge.tail == w || edge.head == w)
        && id_with(partial, w, x, edge.tail) == Some(triple.src)
        && id_with(partial, w, x, edge.head) == Some(triple.dst)
        && edge.label == triple.label
}
