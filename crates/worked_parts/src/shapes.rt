//! Patterns that several tables share.

/// Three vertices without labels, and the edges 0 -> 1 and 1 -> 2.
pub const CHAIN: &str = "p chain hom\nv 0\nv 1\nv 2\ne 0 1 r\ne 1 2 r";

/// The same with the labels `A`, `B` and `C`.
pub const LABELLED_CHAIN: &str = "p chain hom\nv 0 A\nv 1 B\nv 2 C\ne 0 1 r\ne 1 2 r";

/// The edges 0 -> 1, 1 -> 2 and 2 -> 0.
pub const TRIANGLE: &str = "p tri hom\nv 0\nv 1\nv 2\ne 0 1 r\ne 1 2 r\ne 2 0 r";

/// The edges 0 -> 1 and 1 -> 1.
pub const HOOK: &str = "p hook hom\nv 0\nv 1\ne 0 1 r\ne 1 1 r";

/// The edge 0 -> 0.
pub const RING: &str = "p ring hom\nv 0\ne 0 0 r";

/// Two edges 0 -> 1, of the labels `r` and `s`.
pub const BOTH: &str = "p both hom\nv 0\nv 1\ne 0 1 r\ne 0 1 s";

/// One vertex and no edge.
pub const DOT: &str = "p dot hom\nv 0";
