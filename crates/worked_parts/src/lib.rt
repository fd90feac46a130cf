//! What worked rows are made of: graphs, patterns and trees from short texts. The crates of rows share it.
//!
//! - `texts`: graphs, patterns, updates and trees of texts. `triples`: texts and triples. `unmade`: why a text makes none.
//! - `shapes`: the texts of patterns that several tables share.
//! - `states`: whether the states of pairs are those of a table. `maps` and `labels`: whether maps and labels are.
//! - `classes`: what a search finds at a triple.
#![tactic(auto)]

mod classes;
mod labels;
mod maps;
pub mod shapes;
mod states;
mod texts;
mod triples;
mod unmade;

pub use classes::add_classes;
pub use labels::are_labels;
pub use maps::{are_maps, are_same};
pub use states::{has_live_counts, has_states};
pub use texts::{block_graph_of, first, graph_of, patterns_of, tree_of, update_of};
pub use triples::{Parts, insert, text_of, triple_of};
pub use unmade::Unmade;
