//! From what a pattern vertex hangs, and as which child.
ghost use Rattle.std.specs.Prelude.{◌≡◌, ◌≢◌, ◌<◌, length};
ghost use Rattle.dcg_moves.specs.Shape.{parent_in, number_in};

use query_tree::QueryTree;

/// The parent of `u`, which is not the root.
pub(crate) fn parent_of(tree: &QueryTree, u: usize) -> usize
    requires vertex { u < length tree.now.links }
    requires not_root { u ≢ tree.now.root }
    ensures { result ≡ parent_in tree.now u }
{
    tree.parent(u).unwrap().parent
}

/// The place of `u`, which is not the root, among the children of its parent.
pub(crate) fn number_of(tree: &QueryTree, u: usize) -> usize
    requires vertex { u < length tree.now.links }
    requires not_root { u ≢ tree.now.root }
    ensures { result ≡ number_in tree.now u }
{
    tree.child_number(u)
}
