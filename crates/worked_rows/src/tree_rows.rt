//! Trees, worked out by hand from the definition of their growth.
ghost use Rattle.std.specs.Prelude.{◌<◌, length};

use query_tree::numbers::least_by;
use query_tree::{QueryTree, TreeLink};
use std::alloc::Global;
use std::test::Fail;
use worked_parts::shapes::{BOTH, CHAIN, DOT, HOOK, TRIANGLE};
use worked_parts::{Unmade, first, patterns_of, tree_of};

/// The parent of a vertex, the edge that it hangs by, and its place among the parent's children.
type Hanging = (usize, usize, usize);

/// The tree of a pattern for cards of its edges and of its vertices.
#[derive(Clone, Copy)]
struct Row {
    pattern: &'static str,
    edges: &'static [u64],
    vertices: &'static [u64],
    root: usize,
    /// For each vertex but the root how it hangs.
    links: &'static [Option<Hanging>],
    /// For each vertex those that hang from it.
    children: &'static [&'static [usize]],
    /// The edges that no link names.
    non_tree: &'static [usize],
}

const ROWS: [Row; 6] = [
    // The edge of least card has the root.
    Row {
        pattern: CHAIN,
        edges: &[1, 0],
        vertices: &[1, 1, 1],
        root: 1,
        links: &[Some((1, 0, 0)), None, Some((1, 1, 1))],
        children: &[&[], &[0, 2], &[]],
        non_tree: &[],
    },
    // A circle leaves one edge out.
    Row {
        pattern: TRIANGLE,
        edges: &[2, 1, 1],
        vertices: &[3, 3, 3],
        root: 1,
        links: &[Some((2, 2, 0)), None, Some((1, 1, 0))],
        children: &[&[], &[2], &[0]],
        non_tree: &[0],
    },
    // A loop has the root and no link.
    Row {
        pattern: HOOK,
        edges: &[2, 1],
        vertices: &[2, 2],
        root: 1,
        links: &[Some((1, 0, 0)), None],
        children: &[&[], &[0]],
        non_tree: &[1],
    },
    // One of two edges is in the tree.
    Row {
        pattern: BOTH,
        edges: &[3, 3],
        vertices: &[5, 4],
        root: 1,
        links: &[Some((1, 0, 0)), None],
        children: &[&[], &[0]],
        non_tree: &[1],
    },
    Row {
        pattern: BOTH,
        edges: &[3, 2],
        vertices: &[4, 5],
        root: 0,
        links: &[None, Some((0, 1, 0))],
        children: &[&[1], &[]],
        non_tree: &[0],
    },
    // One vertex is the root.
    Row {
        pattern: DOT,
        edges: &[],
        vertices: &[7],
        root: 0,
        links: &[None],
        children: &[&[]],
        non_tree: &[],
    },
];

/// Whether the tree of a row is as it should be.
fn is_right(alloc: Global, row: &Row) -> Result<bool, Unmade> {
    let patterns = patterns_of(alloc, row.pattern)?;
    let tree = tree_of(alloc, first(&patterns)?, row.edges, row.vertices)?;
    Ok(
        tree.root() == row.root
            && tree.non_tree() == row.non_tree
            && has_links(&tree, row.links)
            && has_children(&tree, row.children),
    )
}

/// Whether the vertices hang by these links.
fn has_links(tree: &QueryTree, links: &[Option<Hanging>]) -> bool {
    if tree.vertex_count() != links.len() {
        return false;
    }
    for u in 0..links.len() {
        if !hangs_by(tree, u, links[u]) {
            return false;
        }
    }
    true
}

/// Whether a vertex hangs by this link.
fn hangs_by(tree: &QueryTree, u: usize, link: Option<Hanging>) -> bool
    requires { u < length tree.now.links }
{
    match link {
        None => tree.parent(u).is_none(),
        Some((parent, edge, number)) => {
            u != tree.root()
                && tree.parent(u) == Some(TreeLink { parent, edge })
                && tree.child_number(u) == number
        }
    }
}

/// Whether these vertices hang from each.
fn has_children(tree: &QueryTree, children: &[&[usize]]) -> bool {
    if tree.vertex_count() != children.len() {
        return false;
    }
    for u in 0..children.len() {
        if tree.children(u) != children[u] {
            return false;
        }
    }
    true
}

/// How many rows, from the first on, are as they should be.
fn count_right(alloc: Global, rows: &[Row]) -> Result<usize, Unmade> {
    for i in 0..rows.len() {
        if !is_right(alloc, &rows[i])? {
            return Ok(i);
        }
    }
    Ok(rows.len())
}

#[test]
fn trees_of_patterns(rt: HostRuntime) -> Result<(), Fail> {
    assert_eq!(rt; count_right(rt.alloc(), &ROWS)?, ROWS.len());
    Ok(())
}

/// Two vertices of the first tree above, and whether the second hangs from the first. There is no vertex 3.
const HANGING: [(usize, usize, bool); 6] = [
    (1, 0, true),
    (1, 2, true),
    (0, 1, false),
    (2, 0, false),
    (1, 1, false),
    (1, 3, false),
];

/// How many of these, from the first on, hang so.
fn count_hanging(tree: &QueryTree, rows: &[(usize, usize, bool)]) -> usize {
    for i in 0..rows.len() {
        let (parent, u, hangs) = rows[i];
        if tree.is_child(parent, u) != hangs {
            return i;
        }
    }
    rows.len()
}

#[test]
fn a_vertex_hangs_from_its_parent_alone(rt: HostRuntime) -> Result<(), Fail> {
    let patterns = patterns_of(rt.alloc(), CHAIN)?;
    let tree = tree_of(rt.alloc(), first(&patterns)?, &[1, 0], &[1, 1, 1])?;
    assert_eq!(rt; count_hanging(&tree, &HANGING), HANGING.len());
    Ok(())
}

#[test]
fn the_first_of_the_least_keys_is_chosen(rt: HostRuntime) -> Result<(), Fail> {
    let keys = [5, 2, 7, 2, 1];
    assert!(rt; least_by(&keys, |i| i < 4) == Some(1));
    assert!(rt; least_by(&keys, |i| i == 2) == Some(2));
    assert!(rt; least_by(&keys, |i| i > 4).is_none());
    Ok(())
}
