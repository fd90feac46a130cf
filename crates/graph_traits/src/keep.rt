//! `KeepGraph`: the changes of a store, with their refusals.
ghost use Rattle.std.specs.Prelude.{◌≡◌, Ok, Err, IfOk, OnOk, OnErr, IfErr};
ghost use Rattle.flux_model.specs.Graph.{apply};
ghost use Rattle.flux_model.specs.declared.graph.Update.TheVariants.{AddVertex, DropVertex, AddEdge, DropEdge};
ghost use Rattle.graph_traits.specs.Changes.{IfNotMade};
ghost use Rattle.graph_traits.specs.Rows.{SameRows};

use crate::hold::HoldGraph;
use flux_model::{Code, Labels, Triple};
use std::alloc::AllocError;

/// The changes of a store. Each makes the change of an update of its graph, or answers the first refusal of it.
///
/// A refusal changes nothing, and neither does `AllocError`: the graph and the order of its vertices and rows are as before.
pub trait KeepGraph: HoldGraph {
    /// Adds a vertex with these labels.
    ///
    /// `Exists` where the id is a vertex's. Else `Full` where there are as many vertices as the limit says, or more label
    /// names would be in use than it says.
    fn add_vertex(&mut self, id: u32, labels: &Labels) -> Result<Result<(), Code>, AllocError>
        ensures ok { let due = apply (Self.limits self.old) (Self.graph self.old) (AddVertex id labels.now) in
            IfOk result (λ answer. OnOk answer (due ≡ Ok (Self.graph self.new))) }
        ensures refused { let due = apply (Self.limits self.old) (Self.graph self.old) (AddVertex id labels.now) in
            IfOk result (λ answer. IfErr answer (λ code. due ≡ Err code)) }
        ensures limits { Self.limits self.new ≡ Self.limits self.old }
        ensures unchanged { IfNotMade result (Self.graph self.new ≡ Self.graph self.old) }
        ensures listed { IfNotMade result (Self.listed self.new ≡ Self.listed self.old) }
        ensures outs { IfNotMade result (SameRows (Self.outs_from self.new) (Self.outs_from self.old)) }
        ensures ins { IfNotMade result (SameRows (Self.ins_from self.new) (Self.ins_from self.old)) };

    /// Removes a vertex. It takes no memory.
    ///
    /// `NoVertex` where the id is no vertex's. Else `Busy` where a triple has it as an end.
    fn remove_vertex(&mut self, id: u32) -> Result<(), Code>
        ensures ok { OnOk result (apply (Self.limits self.old) (Self.graph self.old) (DropVertex id) ≡ Ok (Self.graph self.new)) }
        ensures refused { IfErr result (λ code. apply (Self.limits self.old) (Self.graph self.old) (DropVertex id) ≡ Err code) }
        ensures limits { Self.limits self.new ≡ Self.limits self.old }
        ensures unchanged { OnErr result (Self.graph self.new ≡ Self.graph self.old) }
        ensures listed { OnErr result (Self.listed self.new ≡ Self.listed self.old) }
        ensures outs { OnErr result (SameRows (Self.outs_from self.new) (Self.outs_from self.old)) }
        ensures ins { OnErr result (SameRows (Self.ins_from self.new) (Self.ins_from self.old)) };

    /// Adds a triple.
    ///
    /// `NoVertex` where an end is no vertex. Else `Exists` where the triple stands. Else `Full` where there are as many
    /// triples as the limit says, or more label names would be in use than it says.
    fn insert(&mut self, triple: &Triple) -> Result<Result<(), Code>, AllocError>
        ensures ok { let due = apply (Self.limits self.old) (Self.graph self.old) (AddEdge triple.now) in
            IfOk result (λ answer. OnOk answer (due ≡ Ok (Self.graph self.new))) }
        ensures refused { let due = apply (Self.limits self.old) (Self.graph self.old) (AddEdge triple.now) in
            IfOk result (λ answer. IfErr answer (λ code. due ≡ Err code)) }
        ensures limits { Self.limits self.new ≡ Self.limits self.old }
        ensures unchanged { IfNotMade result (Self.graph self.new ≡ Self.graph self.old) }
        ensures listed { IfNotMade result (Self.listed self.new ≡ Self.listed self.old) }
        ensures outs { IfNotMade result (SameRows (Self.outs_from self.new) (Self.outs_from self.old)) }
        ensures ins { IfNotMade result (SameRows (Self.ins_from self.new) (Self.ins_from self.old)) };

    /// Removes a triple. It takes no memory.
    ///
    /// `NoVertex` where an end is no vertex. Else `Absent` where the triple does not stand.
    fn remove(&mut self, triple: &Triple) -> Result<(), Code>
        ensures ok { OnOk result (apply (Self.limits self.old) (Self.graph self.old) (DropEdge triple.now) ≡ Ok (Self.graph self.new)) }
        ensures refused { IfErr result (λ code. apply (Self.limits self.old) (Self.graph self.old) (DropEdge triple.now) ≡ Err code) }
        ensures limits { Self.limits self.new ≡ Self.limits self.old }
        ensures unchanged { OnErr result (Self.graph self.new ≡ Self.graph self.old) }
        ensures listed { OnErr result (Self.listed self.new ≡ Self.listed self.old) }
        ensures outs { OnErr result (SameRows (Self.outs_from self.new) (Self.outs_from self.old)) }
        ensures ins { OnErr result (SameRows (Self.ins_from self.new) (Self.ins_from self.old)) };
}
