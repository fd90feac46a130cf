//! The depths of the vertices of a tree, and how many children each has.
ghost use Rattle.std.specs.Prelude.{◌≡◌, ◌<◌, length, IfOk};
ghost use Rattle.query_tree.specs.Depth.{depth};
ghost use Rattle.dcg_transition.specs.Filled.{child_counts};
ghost use Rattle.dcg_transition.specs.Levels.{depths_of};

use query_tree::QueryTree;
use std::alloc::{AllocError, Global};

/// How many links lead from each vertex to the root.
pub fn depths(alloc: Global, tree: &QueryTree) -> Result<Vec<usize>, AllocError>
    ensures { IfOk result (λ depths. depths.items ≡ depths_of tree.now) }
{
    let mut depths = Vec::new(alloc);
    for u in 0..tree.vertex_count() {
        depths.push(depth(tree, u))?;
    }
    Ok(depths)
}

/// How many links lead from vertex `u` to the root.
fn depth(tree: &QueryTree, u: usize) -> usize
    requires { u < length tree.now.links }
    ensures { result ≡ depth tree.now u }
{
    // For the proof: each vertex hangs from the root, and none is as deep as there are vertices.
    let _known = (tree.root(), tree.vertex_count());
    let mut depth = 0;
    let mut at = u;
    while let Some(link) = tree.parent(at) {
        at = link.parent;
        depth += 1;
    }
    depth
}

/// How many children each vertex has.
pub fn child_counts(alloc: Global, tree: &QueryTree) -> Result<Vec<usize>, AllocError>
    ensures { IfOk result (λ counts. counts.items ≡ child_counts tree.now) }
{
    let mut counts = Vec::new(alloc);
    for u in 0..tree.vertex_count() {
        counts.push(tree.children(u).len())?;
    }
    Ok(counts)
}
