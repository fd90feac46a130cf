//! One joint of one tree edge comes or goes.
ghost use Rattle.std.specs.Prelude.{◌≡◌, ◌≤◌, ◌+◌, true, OnOk};
ghost use Rattle.flux_model.specs.Exact.{row_at};
ghost use Rattle.dcg_moves.specs.Layers.{IsLower};
ghost use Rattle.dcg_moves.specs.Shape.{IsShapeOf};
ghost use Rattle.dcg_moves.specs.Local.{IsLocal, IsLocalWithout, IsLocalWith};
ghost use Rattle.dcg_moves.specs.Sound.{IsSound, HasIds};
ghost use Rattle.dcg_moves.specs.Store.{IsStoreOf, SameStore};
ghost use Rattle.dcg_moves.specs.Weight.{weight};

use crate::fall::down::fall_in;
use crate::fall::up::fall_out;
use crate::hanging::parent_of;
use crate::joints::JointRows;
use crate::rise::down::rise_in;
use crate::rise::up::rise_out;
use dcg_store::Dcg;
use flux_model::{Ledger, State, Steps};
use query_tree::QueryTree;
use std::alloc::AllocError;

/// Counts the joint of u's tree edge between `x`, for the parent, and `y`, which the layers have and the rows have not.
///
/// `AllocError` where no memory is left; the rows are then of no use.
pub fn insert_joint<N: JointRows<L>, L: Ledger>(
    tree: &QueryTree,
    rows: &N,
    dcg: &mut Dcg,
    u: usize,
    x: u32,
    y: u32,
    steps: &mut Steps<L>,
) -> Result<(), AllocError>
    requires shape { IsShapeOf (N.layers rows.now) tree.now }
    requires lower { IsLower (N.layers rows.now) u }
    requires above_fits { let s = N.layers rows.now in s.is_member (s.parent u) x ≡ true }
    requires below_fits { (N.layers rows.now).is_member u y ≡ true }
    requires ids { HasIds (N.layers rows.now) (N.ids rows.now) }
    requires store { IsStoreOf (N.layers rows.now) dcg.old }
    requires sound { IsSound (N.layers rows.now) (N.ids rows.now) (row_at dcg.old) }
    requires before { IsLocalWithout (N.layers rows.now) u x y (row_at dcg.old) }
    ensures exact { OnOk result (IsLocal (N.layers rows.now) (row_at dcg.new)) }
    ensures sound { OnOk result (IsSound (N.layers rows.now) (N.ids rows.now) (row_at dcg.new)) }
    ensures same { SameStore dcg.old dcg.new }
    ensures cost { OnOk result (let weight = weight (N.layers rows.now) (N.ids rows.now) (N.degree rows.now) in
        steps.new + weight (row_at dcg.old) ≤ steps.old + weight (row_at dcg.new) + 6) }
{
    let parent = parent_of(tree, u);
    let was = dcg.pair_state(parent, x, steps);
    if let State::Null = was {
        return Ok(());
    }
    rise_in(tree, rows, dcg, u, y, steps)?;
    let State::Explicit = dcg.pair_state(u, y, steps) else {
        return Ok(());
    };
    rise_out(tree, rows, dcg, u, x, was, steps);
    Ok(())
}

/// Counts off the joint of u's tree edge between `x`, for the parent, and `y`, which the rows have and the layers have no more.
pub fn delete_joint<N: JointRows<L>, L: Ledger>(
    tree: &QueryTree,
    rows: &N,
    dcg: &mut Dcg,
    u: usize,
    x: u32,
    y: u32,
    steps: &mut Steps<L>,
)
    requires shape { IsShapeOf (N.layers rows.now) tree.now }
    requires lower { IsLower (N.layers rows.now) u }
    requires above_fits { let s = N.layers rows.now in s.is_member (s.parent u) x ≡ true }
    requires below_fits { (N.layers rows.now).is_member u y ≡ true }
    requires store { IsStoreOf (N.layers rows.now) dcg.old }
    requires sound { IsSound (N.layers rows.now) (N.ids rows.now) (row_at dcg.old) }
    requires before { IsLocalWith (N.layers rows.now) u x y (row_at dcg.old) }
    ensures exact { IsLocal (N.layers rows.now) (row_at dcg.new) }
    ensures sound { IsSound (N.layers rows.now) (N.ids rows.now) (row_at dcg.new) }
    ensures same { SameStore dcg.old dcg.new }
    ensures cost { let weight = weight (N.layers rows.now) (N.ids rows.now) (N.degree rows.now) in
        steps.new + weight (row_at dcg.new) ≤ steps.old + weight (row_at dcg.old) + 6 }
{
    let parent = parent_of(tree, u);
    let was = dcg.pair_state(parent, x, steps);
    if let State::Null = was {
        return;
    }
    // While y still has its row, so that it is known whether x counts it.
    leave_parent(tree, rows, dcg, u, x, y, was, steps);
    fall_in(tree, rows, dcg, u, y, steps);
}

ghost use Rattle.std.specs.Prelude.{◌≢◌};
ghost use Rattle.flux_model.specs.declared.state.State.TheVariants.{Null};
ghost use Rattle.dcg_store.specs.Counters.{state_of_row};
ghost use Rattle.dcg_moves.specs.JointOver.{OverAt, InsOverAt};

/// Counts the joint off at `x`, whose state is `was`, if it led to an explicit pair.
fn leave_parent<N: JointRows<L>, L: Ledger>(
    tree: &QueryTree,
    rows: &N,
    dcg: &mut Dcg,
    u: usize,
    x: u32,
    y: u32,
    was: State,
    steps: &mut Steps<L>,
)
    requires shape { IsShapeOf (N.layers rows.now) tree.now }
    requires lower { IsLower (N.layers rows.now) u }
    requires above_fits { let s = N.layers rows.now in s.is_member (s.parent u) x ≡ true }
    requires store { IsStoreOf (N.layers rows.now) dcg.old }
    requires sound { IsSound (N.layers rows.now) (N.ids rows.now) (row_at dcg.old) }
    requires over { OverAt (N.layers rows.now) tree.now u x y (row_at dcg.old) }
    requires state { was ≡ state_of_row (row_at dcg.old ((N.layers rows.now).parent u) x) }
    requires stands { was ≢ Null }
    ensures counted { InsOverAt (N.layers rows.now) tree.now u y (row_at dcg.new) }
    ensures sound { IsSound (N.layers rows.now) (N.ids rows.now) (row_at dcg.new) }
    ensures same { SameStore dcg.old dcg.new }
    ensures cost { let weight = weight (N.layers rows.now) (N.ids rows.now) (N.degree rows.now) in
        steps.new + weight (row_at dcg.new) ≤ steps.old + weight (row_at dcg.old) + 3 }
{
    let State::Explicit = dcg.pair_state(u, y, steps) else {
        return;
    };
    fall_out(tree, rows, dcg, u, x, was, steps);
}
