//! The definitions that every contract of the workspace cites, the types that they speak of, and a counter of steps.
//!
//! The definitions stand in `specs/`: lines and what they say, graphs and their changes, patterns and their embeddings,
//! and the texts that a run writes. They speak of lists, numbers and records, and a contract sees the types below as these:
//!
//! - `text`: labels and names.
//! - `labels`: the labels of one vertex, as an ordered set.
//! - `graph`: vertices, triples and the updates of a graph.
//! - `pattern`: patterns, and what a line of a pattern file says.
//! - `cards`: how often the edges and vertices of a pattern fit.
//! - `tree`: how a pattern vertex hangs in a query tree.
//! - `state`: how far a graph vertex can stand for a pattern vertex.
//! - `maps`: maps of a pattern's vertices to ids, and what each pattern gained and lost by an update.
//! - `partial`: ids for some of a pattern's vertices.
//! - `line`, `said` and `code`: a line of an input, what it says, and why it is refused.
//! - `limits`: how much a run may hold.
//! - `ordered` and `sorting`: places in ascending lists, and lists put in order.
//! - `steps`: the counter of steps, whose number only proofs read, and what is told of each step.
//!
//! Each call that takes memory answers `AllocError` where none is left, and then nothing has changed, unless it says otherwise.
#![tactic(auto)]

mod cards;
mod code;
mod graph;
mod labels;
mod limits;
mod line;
mod maps;
mod ordered;
mod partial;
mod pattern;
mod said;
mod sorting;
mod state;
mod steps;
mod text;
mod tree;

pub use cards::Cards;
pub use code::{Bad, Code};
pub use graph::{Triple, Update, Vertex};
pub use labels::Labels;
pub use limits::Limits;
pub use line::Line;
pub use maps::{Delta, Deltas, Map, Maps};
pub use ordered::place;
pub use partial::Partial;
pub use pattern::{Mode, Pattern, PatternEdge, PatternPart, Patterns};
pub use said::Said;
pub use state::State;
pub use steps::{Ledger, Silent, Steps, Tally};
pub use text::Text;
pub use tree::TreeLink;
