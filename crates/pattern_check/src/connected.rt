//! Whether a pattern is connected.
ghost use Rattle.std.specs.Prelude.{◌≡◌, ◌≤◌, ◌<◌, ◌==◌, ℕ, length};
ghost use Rattle.std.specs.List.{AllByRecursion, list_all};
ghost use Rattle.flux_model.specs.Pattern.{HasEnds, reached};
ghost use Rattle.pattern_check.specs.MarkedVertices.{is_marked, is_near};

use flux_model::PatternEdge;

/// How many vertices a pattern may have.
const MOST_VERTICES: usize = 32;

/// Whether each of `count` vertices is reached from vertex 0, the directions of the edges ignored.
pub fn is_connected(count: usize, edges: &[PatternEdge]) -> bool
    requires some_vertex { 1 ≤ count }
    requires few_vertices { count ≤ MOST_VERTICES }
    requires ends { AllByRecursion (HasEnds count) edges.now }
    ensures { result ≡ (length (reached edges.now count count) == count) }
{
    let mut seen = [false; MOST_VERTICES];
    seen[0] = true;
    for _ in 0..count {
        seen = wider(edges, &seen);
    }
    are_all_seen(&seen[..count])
}

/// Whether each vertex is seen.
fn are_all_seen(seen: &[bool]) -> bool
    ensures { result ≡ list_all (λ is_seen. is_seen) seen.now }
{
    seen.iter().all(|is_seen| *is_seen)
}

/// The vertices that are seen, and those next to them.
fn wider(edges: &[PatternEdge], seen: &[bool; MOST_VERTICES]) -> [bool; MOST_VERTICES]
    requires { AllByRecursion (HasEnds MOST_VERTICES) edges.now }
    ensures { (u : ℕ) → u < MOST_VERTICES → is_marked result u ≡ is_near edges.now seen.now u }
{
    let mut next = *seen;
    for edge in edges {
        next[edge.head] |= seen[edge.tail];
        next[edge.tail] |= seen[edge.head];
    }
    next
}
