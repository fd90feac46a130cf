//! The hashed look-ups of a store. Their hasher is chosen here, and nowhere else: it starts from the store's seed.
use crate::link::{Link, Node, Places, RowEntry};
use flux_model::Text;
use indexmap::IndexMap;
use seeded_hash::SeededState;
use std::collections::HashMap;

/// What is kept of each vertex, by its id, in the store's own order.
pub type Nodes = IndexMap<u32, Node<Vec<RowEntry>>, SeededState>;

/// Where each triple stands in the rows of its ends.
pub type Standing = HashMap<Link, Places<usize>, SeededState>;

/// The number of each label name in use.
pub type Numbers = HashMap<Text, u32, SeededState>;
