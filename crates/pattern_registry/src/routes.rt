//! `Routes`: from a label to the patterns that have an edge with it.
ghost use Rattle.std.specs.Prelude.{◌≡◌, ℕ, ◌<◌, List, length, not, take, slice_get, Some, IfOk, OnOk, if◌then◌else◌};
ghost use Rattle.std.specs.List.{list_any};
ghost use Rattle.std.specs.Str.{bytes_eq};
ghost use Rattle.flux_laws.specs.JointsLaws.{has_edge_labelled};
ghost use Rattle.flux_model.specs.declared.pattern.PatternEdge.{PatternEdge};
ghost use Rattle.pattern_registry.specs.Routes.{route, with_place, AreRoutes};

use flux_model::{Pattern, PatternEdge, Patterns, Text};
use indexmap::IndexMap;
use seeded_hash::SeededState;
use std::alloc::{AllocError, Global};

/// The places of some patterns, ascending.
#[derive(Drop)]
pub(crate) struct Route {
    pub places: Vec<usize>,
}

/// For each label that an edge has, the places of the patterns that have such an edge.
pub(crate) type Routes = IndexMap<Text, Route, SeededState>;

/// The routes to these patterns. Labels are hashed from `seed`.
pub(crate) fn routes_to(alloc: Global, patterns: &Patterns, seed: u64) -> Result<Routes, AllocError>
    ensures { IfOk result (λ routes. AreRoutes patterns.now routes.entries) }
{
    let mut routes = Routes::with_hasher(alloc, SeededState::new(seed));
    for k in 0..patterns.count() {
        add_pattern(alloc, &mut routes, k, patterns.get(k))?;
    }
    Ok(routes)
}

/// Puts the place of a pattern at the end of the route of each label that one of its edges has.
fn add_pattern(
    alloc: Global,
    routes: &mut Routes,
    k: usize,
    pattern: &Pattern,
) -> Result<(), AllocError>
    ensures { OnOk result ((label : List ℕ)
        → route routes.new.entries label ≡ with_place (has_edge_labelled pattern.now label) (route routes.old.entries label) k) }
{
    for i in 0..pattern.edge_count() {
        add_edge(alloc, routes, k, pattern, i)?;
    }
    Ok(())
}

/// Puts it at the end of the route of the label of edge `i`, unless an edge before `i` has that label.
fn add_edge(
    alloc: Global,
    routes: &mut Routes,
    k: usize,
    pattern: &Pattern,
    i: usize,
) -> Result<(), AllocError>
    requires { i < length pattern.now.edges }
    ensures { OnOk result ((label : List ℕ) (e : PatternEdge) → slice_get pattern.now.edges i ≡ Some e
        → let before = list_any (λ (f : PatternEdge). bytes_eq f.label label) (take i pattern.now.edges) in
        let now = route routes.old.entries label in
        route routes.new.entries label ≡ (if bytes_eq e.label label then with_place (not before) now k else now)) }
{
    let label = &pattern.edge(i).label;
    if is_named_before(pattern, i, label) {
        return Ok(());
    }
    add_place(alloc, routes, label, k)
}

/// Whether an edge before `i` has the label.
fn is_named_before(pattern: &Pattern, i: usize, label: &Text) -> bool
    requires { i < length pattern.now.edges }
    ensures { result ≡ list_any (λ (f : PatternEdge). bytes_eq f.label label.now) (take i pattern.now.edges) }
{
    for j in 0..i {
        if pattern.edge(j).label == *label {
            return true;
        }
    }
    false
}

/// Puts a place at the end of the route of the label.
fn add_place(alloc: Global, routes: &mut Routes, label: &Text, k: usize) -> Result<(), AllocError>
    ensures { OnOk result ((other : List ℕ)
        → route routes.new.entries other ≡ with_place (bytes_eq label.now other) (route routes.old.entries other) k) }
{
    if let Some(route) = routes.get_mut(label) {
        route.places.push(k)?;
        return Ok(());
    }
    let mut places = Vec::new(alloc);
    places.push(k)?;
    routes.insert(label.copy()?, Route { places })?;
    Ok(())
}

/// The places of the patterns that have an edge with the label, ascending.
pub(crate) fn route_of<'a>(routes: &'a Routes, label: &Text) -> &'a [usize]
    ensures { result.now ≡ route routes.now.entries label.now }
{
    match routes.get(label) {
        Some(route) => route.places.as_slice(),
        None => &[],
    }
}
