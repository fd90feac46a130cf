//! Places in lists that are in strictly ascending order.
ghost use Rattle.std.specs.Prelude.{◌≡◌, ◌≤◌, ◌<◌, length, insert, true, false, IsTrue, OnOk, OnErr, IfOk, IfErr};
ghost use Rattle.flux_model.specs.Ordered.{is_ascending, is_in, put};

use std::cmp::Ordering;

/// Where `x` stands in a list in strictly ascending order: `Ok` with its place, or `Err` with the place at which it
/// would keep the order.
pub fn place<T: Ord>(items: &[T], x: &T) -> Result<usize, usize>
    requires { IsTrue (is_ascending T.cmp items.now) }
    ensures found { OnOk result (is_in T.cmp x.now items.now ≡ true) }
    ensures absent { OnErr result (is_in T.cmp x.now items.now ≡ false) }
    ensures stays { OnOk result (put T.cmp x.now items.now ≡ items.now) }
    ensures at { IfOk result (λ at. at < length items.now) }
    ensures within { IfErr result (λ at. at ≤ length items.now) }
    ensures put { IfErr result (λ at. insert items.now at x.now ≡ put T.cmp x.now items.now) }
{
    for (i, y) in items.iter().enumerate() {
        match x.cmp(y) {
            Ordering::Less => return Err(i),
            Ordering::Equal => return Ok(i),
            Ordering::Greater => {}
        }
    }
    Err(items.len())
}
