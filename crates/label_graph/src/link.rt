//! Triples by numbers, and what a vertex keeps.
use flux_model::Labels;

/// A triple, by its ends and the number of its label.
#[derive(Clone, Copy, PartialEq, Eq, Hash, Debug)]
pub struct Link {
    pub src: u32,
    pub label: u32,
    pub dst: u32,
}

/// A vertex: its id, and where it stands among the vertices.
#[derive(Clone, Copy, Debug)]
pub struct Member {
    pub id: u32,
    pub index: usize,
}

/// What a row has of a triple: its label and its other end.
#[derive(Clone, Copy, PartialEq, Eq, Debug)]
pub struct RowEntry {
    pub label: u32,
    pub other: u32,
}

/// Where a triple stands in the out row of its source and in the in row of its target. What a place is says the store.
#[derive(Clone, Copy, Debug)]
pub struct Places<P> {
    pub out_at: P,
    pub in_at: P,
}

/// A vertex: its labels and its two rows, in the store's own form.
#[derive(Drop)]
pub struct Node<R> {
    pub labels: Labels,
    pub outs: R,
    pub ins: R,
}
