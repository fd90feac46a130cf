//! The numbers that are drawn.
ghost use Rattle.std.specs.Prelude.{◌≡◌, ◌≤◌, ◌<◌, ◌^◌};
ghost use Rattle.flux_model.specs.Generated.{next, pick, triple_from, after_triple};
ghost use Rattle.flux_gen.specs.Drawn.{edge_triple};

/// The state from which the next number is drawn.
#[derive(Drop)]
pub(crate) struct Draws {
    state: u64,
}

impl Draws {
    /// The first state is the number itself.
    pub(crate) fn new(number: u64) -> Draws
        ensures { result.state ≡ number }
    {
        Draws { state: number }
    }

    /// Draws a number below `bound`.
    pub(crate) fn pick(&mut self, bound: u32) -> u32
        requires { 1 ≤ bound }
        ensures value { result ≡ pick self.old.state bound }
        ensures state { self.new.state ≡ next self.old.state }
        ensures below { result < bound }
    {
        self.state = self
            .state
            .wrapping_mul(6364136223846793005)
            .wrapping_add(1442695040888963407);
        scaled(self.state >> 32, bound)
    }
}

ghost use Rattle.std.specs.Prelude.{◌*◌, ◌/◌};

/// A number of 32 bits, scaled to one below `bound`.
fn scaled(upper: u64, bound: u32) -> u32
    requires bound { 1 ≤ bound }
    requires upper { upper < 2 ^ 32 }
    ensures value { result ≡ upper * bound / 2 ^ 32 }
    ensures below { result < bound }
{
    ((upper * u64::from(bound)) >> 32) as u32
}

/// An edge that was drawn: its ends, and the number of its label.
#[derive(Clone, Copy)]
pub(crate) struct Edge {
    pub src: u32,
    pub dst: u32,
    pub label: u32,
}

/// Draws an edge among so many vertices.
pub(crate) fn draw_edge(vertices: u32, draws: &mut Draws) -> Edge
    requires { 1 ≤ vertices }
    ensures edge { edge_triple result ≡ triple_from vertices draws.old.state }
    ensures state { draws.new.state ≡ after_triple draws.old.state }
{
    let src = draws.pick(vertices);
    let dst = draws.pick(vertices);
    let label = draws.pick(4);
    Edge { src, dst, label }
}
