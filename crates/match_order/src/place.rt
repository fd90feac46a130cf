//! `Place`: a vertex of an order, with its anchor.
use std::marker::Model;

/// A vertex of an order, and its anchor: a vertex before it that is its neighbour in the tree. Both are below 32, and kept in
/// a byte each, so that an order is moved cheaply.
#[derive(Drop, Default)]
pub struct Place {
    pub vertex: u8,
    pub anchor: u8,
}

impl Model for Place {
    ghost use Rattle.flux_model.specs.Order.{Place as OrderPlace};

    ghost Value = { OrderPlace };

    ghost view = { λ p. record { vertex = p.vertex; anchor = p.anchor } };
}
