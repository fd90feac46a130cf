//! `PlainGraph`: a graph as two lists.
ghost use Rattle.std.specs.Prelude.{◌≡◌, ◌≤◌, ◌<◌, ◌==◌, ◌&&◌, ◌||◌, not, true, false, nat_le, nat_lt, ℕ};
ghost use Rattle.std.specs.Prelude.{List, [], ◌∷◌, length, filter, insert, slice_get, Some, Ok, Err, IsTrue, IfOk, OnOk, OnErr, IfErr};
ghost use Rattle.std.specs.List.{list_any};
ghost use Rattle.std.specs.Ordering.{is_eq};
ghost use Rattle.flux_model.specs.Ordered.{is_ascending, is_in, put};
ghost use Rattle.flux_model.specs.Labels.{is_within};
ghost use Rattle.flux_model.specs.Graph.{vertex_cmp, triple_cmp, name_count, ids, has_triple};
ghost use Rattle.flux_model.specs.Graph.{apply, add_vertex, drop_vertex, add_edge, drop_edge};
ghost use Rattle.flux_model.specs.Pattern.{fits_labels};
ghost use Rattle.flux_model.specs.declared.graph.Vertex.{Vertex};

use crate::names::Names;
use flux_model::{Code, Labels, Limits, Text, Triple, Update, Vertex, place};
use std::alloc::{AllocError, Global};
use std::cmp::Ordering;
use std::marker::Model;

/// A graph as two ascending lists, kept under limits.
#[derive(Drop)]
pub struct PlainGraph {
    limits: Limits,
    vertices: Vec<Vertex>,
    triples: Vec<Triple>,
}

impl Model for PlainGraph {
    ghost use Rattle.flux_model.specs.Graph.{Graph, LimitedGraph};
    ghost use Rattle.plain_match.specs.Limited.{KeepsLimits};

    ghost Value = { LimitedGraph };

    ghost view = { λ p. record { limits = p.limits; graph = record { vertices = p.vertices.items; triples = p.triples.items } } };

    ghost invariant = { λ p. let graph : Graph = record { vertices = p.vertices.items; triples = p.triples.items } in
        KeepsLimits (record { limits = p.limits; graph = graph }) };
}

impl PlainGraph {
    ghost use Rattle.flux_model.specs.Graph.{IsGraph, IsWithin, empty_graph};
    ghost use Rattle.plain_match.specs.Limited.{KeepsLimits};

    /// The empty graph under these limits.
    pub fn new(alloc: Global, limits: &Limits) -> PlainGraph
        ensures { result ≡ record { limits = limits.now; graph = empty_graph } }
    {
        PlainGraph {
            limits: *limits,
            vertices: Vec::new(alloc),
            triples: Vec::new(alloc),
        }
    }

    /// Makes the change of an update, or says why it is refused.
    ///
    /// A refusal changes nothing, and neither does `AllocError`.
    pub fn apply(&mut self, update: &Update) -> Result<Result<(), Code>, AllocError>
        ensures ok { IfOk result (λ answer. OnOk answer (apply self.old.limits self.old.graph update.now ≡ Ok self.new.graph)) }
        ensures refused { IfOk result (λ answer. IfErr answer (λ code. apply self.old.limits self.old.graph update.now ≡ Err code)) }
        ensures unchanged { IfOk result (λ answer. OnErr answer (self.new ≡ self.old)) }
        ensures err { OnErr result (self.new ≡ self.old) }
        ensures limits { self.new.limits ≡ self.old.limits }
        ensures was_graph { IsGraph self.old.graph }
        ensures graph { IsGraph self.new.graph }
        ensures within { IsWithin self.new.limits self.new.graph }
    {
        // For the proof of `was_graph`: a field that is read tells what every graph keeps.
        let _limits = self.limits;
        match update {
            Update::AddVertex { id, labels } => self.add_vertex(*id, labels),
            Update::DropVertex { id } => Ok(self.drop_vertex(*id)),
            Update::AddEdge(t) => self.add_edge(t),
            Update::DropEdge(t) => Ok(self.drop_edge(t)),
        }
    }

    fn add_vertex(&mut self, id: u32, labels: &Labels) -> Result<Result<(), Code>, AllocError>
        ensures ok { let after = add_vertex self.old.limits self.old.graph (record { id = id; labels = labels.now }) in
            IfOk result (λ answer. OnOk answer (after ≡ Ok self.new.graph)) }
        ensures refused { let after = add_vertex self.old.limits self.old.graph (record { id = id; labels = labels.now }) in
            IfOk result (λ answer. IfErr answer (λ code. after ≡ Err code)) }
        ensures unchanged { IfOk result (λ answer. OnErr answer (self.new ≡ self.old)) }
        ensures err { OnErr result (self.new ≡ self.old) }
        ensures limits { self.new.limits ≡ self.old.limits }
        ensures kept { KeepsLimits self.new }
    {
        match id_place(self.vertices.as_slice(), id) {
            Ok(_) => Ok(Err(Code::Exists)),
            Err(at) => {
                let count = count_names(
                    *self.vertices.allocator(),
                    self.vertices.as_slice(),
                    self.triples.as_slice(),
                    labels,
                )?;
                if is_full(
                    self.limits.vertices,
                    self.vertices.len(),
                    self.limits.labels,
                    count,
                ) {
                    return Ok(Err(Code::Full));
                }
                // For the proof: the labels are those of a set.
                let _ = labels.len();
                let labels = labels.copy()?;
                self.vertices.insert(at, Vertex { id, labels })?;
                Ok(Ok(()))
            }
        }
    }

    fn drop_vertex(&mut self, id: u32) -> Result<(), Code>
        ensures ok { OnOk result (drop_vertex self.old.graph id ≡ Ok self.new.graph) }
        ensures refused { IfErr result (λ code. drop_vertex self.old.graph id ≡ Err code) }
        ensures unchanged { OnErr result (self.new ≡ self.old) }
        ensures limits { self.new.limits ≡ self.old.limits }
        ensures kept { KeepsLimits self.new }
    {
        if !has_id(self.vertices.as_slice(), id) {
            return Err(Code::NoVertex);
        }
        if has_incident_triple(self.triples.as_slice(), id) {
            return Err(Code::Busy);
        }
        remove_vertex(&mut self.vertices, id);
        Ok(())
    }

    #[tactic(auto, using(crate::proofs::GraphLemmas::add_edge_full))]
    fn add_edge(&mut self, t: &Triple) -> Result<Result<(), Code>, AllocError>
        ensures ok { IfOk result (λ answer. OnOk answer (add_edge self.old.limits self.old.graph t.now ≡ Ok self.new.graph)) }
        ensures refused { IfOk result (λ answer. IfErr answer (λ code. add_edge self.old.limits self.old.graph t.now ≡ Err code)) }
        ensures unchanged { IfOk result (λ answer. OnErr answer (self.new ≡ self.old)) }
        ensures err { OnErr result (self.new ≡ self.old) }
        ensures limits { self.new.limits ≡ self.old.limits }
        ensures kept { KeepsLimits self.new }
    {
        if !has_both_ends(self.vertices.as_slice(), t) {
            return Ok(Err(Code::NoVertex));
        }
        match place(self.triples.as_slice(), t) {
            Ok(_) => Ok(Err(Code::Exists)),
            Err(at) => {
                let count = count_names_with_one(
                    *self.vertices.allocator(),
                    self.vertices.as_slice(),
                    self.triples.as_slice(),
                    &t.label,
                )?;
                if is_full(
                    self.limits.edges,
                    self.triples.len(),
                    self.limits.labels,
                    count,
                ) {
                    return Ok(Err(Code::Full));
                }
                // For the proof: the label is a text.
                let _ = t.label.bytes();
                let t = t.copy()?;
                self.triples.insert(at, t)?;
                Ok(Ok(()))
            }
        }
    }

    fn drop_edge(&mut self, t: &Triple) -> Result<(), Code>
        ensures ok { OnOk result (drop_edge self.old.graph t.now ≡ Ok self.new.graph) }
        ensures refused { IfErr result (λ code. drop_edge self.old.graph t.now ≡ Err code) }
        ensures unchanged { OnErr result (self.new ≡ self.old) }
        ensures limits { self.new.limits ≡ self.old.limits }
        ensures kept { KeepsLimits self.new }
    {
        if !has_both_ends(self.vertices.as_slice(), t) {
            return Err(Code::NoVertex);
        }
        if !is_among(t.src, &t.label, t.dst, self.triples.as_slice()) {
            return Err(Code::Absent);
        }
        remove_triple(&mut self.triples, t);
        Ok(())
    }

    /// How many vertices there are.
    pub(crate) fn vertex_count(&self) -> usize
        ensures count { result ≡ length (ids self.now.graph) }
        ensures graph { IsGraph self.now.graph }
    {
        self.vertices.len()
    }

    /// The id at this place among the vertices.
    pub(crate) fn id(&self, i: usize) -> u32
        requires { i < length (ids self.now.graph) }
        ensures { slice_get (ids self.now.graph) i ≡ Some result }
    {
        self.vertices[i].id
    }

    /// Whether an id is that of a vertex that has each of these labels.
    pub(crate) fn fits(&self, labels: &Labels, id: u32) -> bool
        ensures { result ≡ fits_labels self.now.graph labels.now id }
    {
        any_fits(self.vertices.as_slice(), labels, id)
    }

    /// Whether the triple of these parts is in the graph.
    pub(crate) fn has_edge(&self, src: u32, label: &Text, dst: u32) -> bool
        ensures { result ≡ has_triple self.now.graph (record { src = src; label = label.now; dst = dst }) }
    {
        is_among(src, label, dst, self.triples.as_slice())
    }
}

/// Where the vertex of this id stands, or else where it would stand.
fn id_place(vertices: &[Vertex], id: u32) -> Result<usize, usize>
    requires { IsTrue (is_ascending vertex_cmp vertices.now) }
    ensures found { OnOk result (list_any (λ v. v.id == id) vertices.now ≡ true) }
    ensures absent { OnErr result (list_any (λ v. v.id == id) vertices.now ≡ false) }
    ensures within { IfErr result (λ at. at ≤ length vertices.now) }
    ensures put { IfErr result (λ at. (labels : List (List ℕ)) → let vertex : Vertex = record { id = id; labels = labels } in
        insert vertices.now at vertex ≡ put vertex_cmp vertex vertices.now) }
{
    for (i, v) in vertices.iter().enumerate() {
        match id.cmp(&v.id) {
            Ordering::Less => return Err(i),
            Ordering::Equal => return Ok(i),
            Ordering::Greater => {}
        }
    }
    Err(vertices.len())
}

/// Whether a vertex has this id.
fn has_id(vertices: &[Vertex], id: u32) -> bool
    ensures { result ≡ list_any (λ v. v.id == id) vertices.now }
{
    vertices.iter().any(|v| v.id == id)
}

/// Whether both ends of a triple are among the vertices.
fn has_both_ends(vertices: &[Vertex], t: &Triple) -> bool
    ensures { result ≡ (list_any (λ v. v.id == t.now.src) vertices.now && list_any (λ v. v.id == t.now.dst) vertices.now) }
{
    has_id(vertices, t.src) && has_id(vertices, t.dst)
}

/// Whether a vertex has this id and each of these labels.
fn any_fits(vertices: &[Vertex], labels: &Labels, id: u32) -> bool
    ensures { result ≡ list_any (λ v. v.id == id && is_within labels.now v.labels) vertices.now }
{
    vertices
        .iter()
        .any(|v| v.id == id && labels.within(&v.labels))
}

/// Takes the vertex of this id away.
fn remove_vertex(vertices: &mut Vec<Vertex>, id: u32)
    ensures { vertices.new.items ≡ filter (λ v. not (v.id == id)) vertices.old.items }
{
    vertices.retain(|v| v.id != id);
}

/// Whether a triple has this id as an end.
fn has_incident_triple(triples: &[Triple], id: u32) -> bool
    ensures { result ≡ list_any (λ t. t.src == id || t.dst == id) triples.now }
{
    triples.iter().any(|t| t.src == id || t.dst == id)
}

/// Whether the triple of these parts is among others.
fn is_among(src: u32, label: &Text, dst: u32, triples: &[Triple]) -> bool
    ensures { result ≡ is_in triple_cmp (record { src = src; label = label.now; dst = dst }) triples.now }
{
    triples.iter().any(|t| src
        .cmp(&t.src)
        .then(label.cmp(&t.label).then(dst.cmp(&t.dst)))
        .is_eq())
}

/// Takes a triple away.
fn remove_triple(triples: &mut Vec<Triple>, t: &Triple)
    ensures { triples.new.items ≡ filter (λ s. not (is_eq (triple_cmp s t.now))) triples.old.items }
{
    triples.retain(|s| !s.cmp(t).is_eq());
}

/// Whether a list is as long as its limit, or the names are more than theirs.
fn is_full(limit: u64, count: usize, name_limit: u64, names: usize) -> bool
    ensures { result ≡ (nat_le limit count || nat_lt name_limit names) }
{
    limit <= count as u64 || name_limit < names as u64
}

/// How many distinct label names vertices and triples have, together with these labels.
#[tactic(auto, using(crate::proofs::NamesLemmas::put_all_parts))]
fn count_names(
    alloc: Global,
    vertices: &[Vertex],
    triples: &[Triple],
    labels: &Labels,
) -> Result<usize, AllocError>
    ensures { IfOk result (λ n. n ≡ name_count (record { vertices = vertices.now; triples = triples.now }) labels.now) }
{
    let mut names = Names::of(alloc, vertices, triples)?;
    names.add_labels(labels)?;
    Ok(names.len())
}

/// How many distinct label names vertices and triples have, together with this label.
fn count_names_with_one(
    alloc: Global,
    vertices: &[Vertex],
    triples: &[Triple],
    label: &Text,
) -> Result<usize, AllocError>
    ensures { IfOk result (λ n. n ≡ name_count (record { vertices = vertices.now; triples = triples.now }) (label.now ∷ [])) }
{
    let mut names = Names::of(alloc, vertices, triples)?;
    names.add(label)?;
    Ok(names.len())
}
