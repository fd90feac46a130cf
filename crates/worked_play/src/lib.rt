//! What worked runs are made of: the words, files and updates of a run in memory, and how it has to end. The crates of runs share it.
#![tactic(auto)]

mod play;

pub use play::{
    GRAPH, Lower, MATCH, PATTERN, Run, SAVE, WATCH, count_right, end_of, files_of, is_right,
    limits_of, shelf_of, words_of,
};
