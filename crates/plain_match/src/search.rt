//! All embeddings, by trying every list of ids.
ghost use Rattle.std.specs.Prelude.{◌≡◌, ◌+◌, length, ◌++◌, nat_eq, IsTrue, IfOk, OnOk, vec_len};
ghost use Rattle.std.specs.Ordering.{nat_cmp};
ghost use Rattle.std.specs.Cmp.Lexicographic.{slice_cmp};
ghost use Rattle.flux_model.specs.Ordered.{is_ascending, are_distinct_by};
ghost use Rattle.flux_model.specs.Embedding.{fit_all, keeps_edges, keeps_mode, is_embedding, embeddings};
ghost use Rattle.plain_match.specs.Extensions.{extensions};

use crate::graph::PlainGraph;
use flux_model::{Map, Maps, Mode, Pattern};
use std::alloc::{AllocError, Global};

/// All embeddings of the pattern in the graph, each once, in ascending order.
pub fn plain_all(alloc: Global, pattern: &Pattern, graph: &PlainGraph) -> Result<Maps, AllocError>
    ensures all { IfOk result (λ maps. maps ≡ embeddings pattern.now graph.now.graph) }
    ensures ascending { IfOk result (λ maps. IsTrue (is_ascending (slice_cmp nat_cmp) maps)) }
{
    // For the proof: the ids of the graph are ascending.
    let _ = graph.vertex_count();
    let mut found = Maps::new(alloc);
    let mut prefix = Vec::new(alloc);
    extend(
        alloc,
        pattern,
        graph,
        pattern.vertex_count(),
        &mut prefix,
        &mut found,
    )?;
    Ok(found)
}

/// Adds each embedding that begins with the prefix, which wants `left` more ids.
fn extend(
    alloc: Global,
    pattern: &Pattern,
    graph: &PlainGraph,
    left: usize,
    prefix: &mut Vec<u32>,
    found: &mut Maps,
) -> Result<(), AllocError>
    requires { vec_len prefix.old + left ≡ length pattern.now.labels }
    ensures prefix { OnOk result (prefix.new.items ≡ prefix.old.items) }
    ensures found { OnOk result (found.new ≡ found.old ++ extensions pattern.now graph.now.graph prefix.old.items left) }
{
    if left == 0 {
        if is_embedding(pattern, graph, prefix.as_slice()) {
            found.add(map_of(alloc, prefix.as_slice())?)?;
        }
        return Ok(());
    }
    for i in 0..graph.vertex_count() {
        prefix.push(graph.id(i))?;
        extend(alloc, pattern, graph, left - 1, prefix, found)?;
        let _last = prefix.pop();
    }
    Ok(())
}

/// The ids as a map.
fn map_of(alloc: Global, ids: &[u32]) -> Result<Map, AllocError>
    ensures { IfOk result (λ m. m ≡ ids.now) }
{
    let mut m = Map::new(alloc);
    for id in ids {
        m.add(*id)?;
    }
    Ok(m)
}

/// Whether the ids are an embedding.
fn is_embedding(pattern: &Pattern, graph: &PlainGraph, m: &[u32]) -> bool
    requires { length m.now ≡ length pattern.now.labels }
    ensures { result ≡ is_embedding pattern.now graph.now.graph m.now }
{
    let fit = fit_all(pattern, graph, m);
    let edges = keeps_edges(pattern, graph, m);
    let mode = keeps_mode(pattern.mode(), m);
    fit && edges && mode
}

/// Whether each id fits the labels at its place.
fn fit_all(pattern: &Pattern, graph: &PlainGraph, m: &[u32]) -> bool
    requires { length m.now ≡ length pattern.now.labels }
    ensures { result ≡ fit_all pattern.now graph.now.graph m.now }
{
    for u in 0..m.len() {
        if !graph.fits(pattern.labels(u), m[u]) {
            return false;
        }
    }
    true
}

/// Whether each edge of the pattern is sent to a triple of the graph.
fn keeps_edges(pattern: &Pattern, graph: &PlainGraph, m: &[u32]) -> bool
    requires { length m.now ≡ length pattern.now.labels }
    ensures { result ≡ keeps_edges pattern.now graph.now.graph m.now }
{
    for i in 0..pattern.edge_count() {
        let e = pattern.edge(i);
        if !graph.has_edge(m[e.tail], &e.label, m[e.head]) {
            return false;
        }
    }
    true
}

/// Whether the mode allows the ids.
fn keeps_mode(mode: Mode, m: &[u32]) -> bool
    ensures { result ≡ keeps_mode mode m.now }
{
    match mode {
        Mode::Hom => true,
        Mode::Iso => are_distinct(m),
    }
}

/// Whether no id stands twice.
fn are_distinct(m: &[u32]) -> bool
    ensures { result ≡ are_distinct_by nat_eq m.now }
{
    for i in 0..m.len() {
        if m[i + 1..].contains(&m[i]) {
            return false;
        }
    }
    true
}
