//! `Limits`: how much a run may hold.
ghost use Rattle.std.specs.Prelude.{◌≡◌, ◌↔◌, IsTrue};

/// How much a run may hold, of each kind.
#[derive(Clone, Copy, Debug, PartialEq, Eq)]
pub struct Limits {
    /// Bytes of a line, without its end.
    pub line_bytes: u64,
    /// Bytes of one input.
    pub input_bytes: u64,
    /// Vertices of the graph.
    pub vertices: u64,
    /// Triples of the graph.
    pub edges: u64,
    /// Distinct label names on the graph's vertices and triples.
    pub labels: u64,
    /// Patterns.
    pub patterns: u64,
    /// Vertices of a pattern.
    pub pattern_vertices: u64,
    /// Edges of a pattern.
    pub pattern_edges: u64,
}

impl Limits {
    ghost use Rattle.flux_model.specs.Limits.{standard, IsFair};

    /// The standard limits, which are the largest that a run may have.
    pub fn standard() -> Limits
        ensures { result ≡ standard }
    {
        Limits {
            line_bytes: 4096,
            input_bytes: 17179869184,
            vertices: 1048576,
            edges: 4194304,
            labels: 65535,
            patterns: 256,
            pattern_vertices: 32,
            pattern_edges: 64,
        }
    }

    /// Whether each limit is at least 1 and at most the standard one.
    pub fn fair(&self) -> bool
        ensures { IsTrue result ↔ IsFair self.now }
    {
        let most = Limits::standard();
        let lines = within(self.line_bytes, most.line_bytes)
            && within(self.input_bytes, most.input_bytes);
        let graph = within(self.vertices, most.vertices)
            && within(self.edges, most.edges)
            && within(self.labels, most.labels);
        let patterns = within(self.patterns, most.patterns)
            && within(self.pattern_vertices, most.pattern_vertices)
            && within(self.pattern_edges, most.pattern_edges);
        lines && graph && patterns
    }
}

ghost use Rattle.std.specs.Prelude.{◌≤◌};

/// Whether a limit is at least 1 and at most another.
fn within(limit: u64, most: u64) -> bool
    ensures { IsTrue result ↔ ((1 ≤ limit) × (limit ≤ most)) }
{
    1 <= limit && limit <= most
}
