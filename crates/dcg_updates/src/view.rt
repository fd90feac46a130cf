//! `JointView`: the joints of all tree edges while a triple comes or goes.
ghost use Rattle.std.specs.Prelude.{◌≡◌, ◌≢◌, ◌<◌, length};
ghost use Rattle.std.proofs.Props.{props};
ghost use Rattle.dcg_updates.specs.Changed.{IsChangeOf};

use crate::joint::joint_at;
use crate::sight::{Change, Sight};
use crate::walk::{Walk, walk_along};
use dcg_moves::{EdgeRows, JointPlace, JointRows};
use flux_model::{Ledger, Pattern, Steps, Triple};
use graph_traits::{HoldGraph, ReadGraph};
use query_tree::QueryTree;

/// The joints of the tree of a pattern, while a triple comes to the graph at hand or has gone from it.
///
/// The tree edges of the vertices below a number see the graph at hand, and the others see the graph before the change.
#[derive(Drop)]
pub(crate) struct JointView<'a, G: HoldGraph> {
    pub pattern: &'a Pattern,
    pub tree: &'a QueryTree,
    pub graph: &'a G,
    pub triple: &'a Triple,
    pub change: Change,
    /// The vertices from this one on are still to come.
    pub next: usize,
    ghost sound: { IsChangeOf pattern.now tree.now (G.graph graph.now) triple.now change } by { Prim.hlevel props },
}

impl<'a, G: HoldGraph> JointView<'a, G> {
    ghost use Rattle.dcg_updates.specs.Sights.{sight_of};
    ghost use Rattle.dcg_updates.specs.Views.{up_plan, down_plan};
    ghost use Rattle.dcg_updates.specs.WalkPlans.{plan_of};
    ghost use Rattle.graph_traits.specs.Numbers.{IsNumberOf};

    /// What the tree edge of `u` sees.
    fn sight(&self, u: usize) -> Sight
        ensures { result ≡ sight_of self.now.change self.now.next u }
    {
        if u < self.next {
            return Sight::AtHand;
        }
        match self.change {
            Change::Added => Sight::Without,
            Change::Taken => Sight::With,
        }
    }

    /// The walk from `v` along the tree edge of `u` to ids for the parent.
    fn up(&self, u: usize, v: u32) -> Walk<'a>
        requires vertex { u < length self.now.tree.now.links }
        requires not_root { u ≢ self.now.tree.now.root }
        ensures plan { let s = self.now in plan_of result ≡ up_plan s.pattern.now s.tree.now s.triple.now s.change s.next u v }
        ensures number { IsNumberOf (G.label_text self.now.graph.now) result.row.label.now result.row.label_number }
    {
        let parent = self.tree.parent(u).unwrap().parent;
        walk_along(
            self.graph,
            self.pattern,
            self.tree,
            self.triple,
            self.sight(u),
            u,
            parent,
            v,
        )
    }

    /// The walk from `v` along the tree edge of `c` to ids for `c`.
    fn down(&self, c: usize, v: u32) -> Walk<'a>
        requires vertex { c < length self.now.tree.now.links }
        requires not_root { c ≢ self.now.tree.now.root }
        ensures plan { let s = self.now in plan_of result ≡ down_plan s.pattern.now s.tree.now s.triple.now s.change s.next c v }
        ensures number { IsNumberOf (G.label_text self.now.graph.now) result.row.label.now result.row.label_number }
    {
        walk_along(
            self.graph,
            self.pattern,
            self.tree,
            self.triple,
            self.sight(c),
            c,
            c,
            v,
        )
    }
}

impl<'a, G: ReadGraph<L>, L: Ledger> JointRows<L> for JointView<'a, G> {
    ghost use Rattle.dcg_moves.specs.Update.{view};
    ghost use Rattle.dcg_updates.specs.Changed.{update_of, large_of, ids_of, degree_in};
    ghost use Rattle.dcg_updates.specs.Plans.{left_from, cost_from};
    ghost use Rattle.dcg_updates.specs.Sights.{done_of};
    ghost use Rattle.dcg_updates.specs.Views.{up_plan, down_plan, IsPlaceAt};

    ghost layers = { λ s. view (update_of s.pattern.now s.tree.now (G.graph s.graph.now) s.triple.now s.change)
        (done_of s.tree.now s.change s.next) };

    ghost ids = { λ s. ids_of (G.graph s.graph.now) };

    ghost degree = { λ s. degree_in (large_of s.change (G.graph s.graph.now) s.triple.now) };

    ghost ups_from = { λ s u v. left_from (G.outs_from s.graph.now) (G.ins_from s.graph.now) (G.graph s.graph.now)
        (up_plan s.pattern.now s.tree.now s.triple.now s.change s.next u v) };

    ghost up_cost = { λ s u v. cost_from (G.outs_from s.graph.now) (G.ins_from s.graph.now)
        (up_plan s.pattern.now s.tree.now s.triple.now s.change s.next u v) };

    ghost downs_from = { λ s c v. left_from (G.outs_from s.graph.now) (G.ins_from s.graph.now) (G.graph s.graph.now)
        (down_plan s.pattern.now s.tree.now s.triple.now s.change s.next c v) };

    ghost down_cost = { λ s c v. cost_from (G.outs_from s.graph.now) (G.ins_from s.graph.now)
        (down_plan s.pattern.now s.tree.now s.triple.now s.change s.next c v) };

    ghost is_up_place = { λ s u v. IsPlaceAt s.tree.now (G.graph s.graph.now) (G.is_out_place s.graph.now) (G.is_in_place s.graph.now)
        (up_plan s.pattern.now s.tree.now s.triple.now s.change s.next u v) u v };

    ghost is_down_place = { λ s c v. IsPlaceAt s.tree.now (G.graph s.graph.now) (G.is_out_place s.graph.now) (G.is_in_place s.graph.now)
        (down_plan s.pattern.now s.tree.now s.triple.now s.change s.next c v) c v };

    fn up_start(&self, u: usize, v: u32) -> JointPlace {
        self.up(u, v).first(self.graph)
    }

    fn up_at(
        &self,
        u: usize,
        v: u32,
        at: JointPlace,
        steps: &mut Steps<L>,
    ) -> Option<(u32, JointPlace)> {
        self.up(u, v).next(self.graph, at, steps)
    }

    fn down_start(&self, c: usize, v: u32) -> JointPlace {
        self.down(c, v).first(self.graph)
    }

    fn down_at(
        &self,
        c: usize,
        v: u32,
        at: JointPlace,
        steps: &mut Steps<L>,
    ) -> Option<(u32, JointPlace)> {
        self.down(c, v).next(self.graph, at, steps)
    }
}

impl<'a, G: ReadGraph<L>, L: Ledger> EdgeRows<L> for JointView<'a, G> {
    ghost use Rattle.dcg_updates.specs.Changed.{update_of};
    ghost use Rattle.dcg_updates.specs.Sights.{done_of};

    ghost update = { λ s. update_of s.pattern.now s.tree.now (G.graph s.graph.now) s.triple.now s.change };

    ghost done = { λ s. done_of s.tree.now s.change s.next };

    fn advance(&mut self, u: usize, steps: &mut Steps<L>) -> Option<(u32, u32)> {
        // For the proof: the number of vertices fits a `usize`.
        let _count = self.tree.vertex_count();
        self.next = u + 1;
        joint_at(self.graph, self.pattern, self.tree, self.triple, u, steps)
    }

    fn retreat(&mut self, u: usize, steps: &mut Steps<L>) -> Option<(u32, u32)> {
        // For the proof: the number of vertices fits a `usize`.
        let _count = self.tree.vertex_count();
        self.next = u + 1;
        joint_at(self.graph, self.pattern, self.tree, self.triple, u, steps)
    }
}
