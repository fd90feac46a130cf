//! Numbers below a bound, chosen by a test.
ghost use Rattle.std.specs.Prelude.{◌≡◌, ◌==◌, ◌<◌, ℕ, Bool, IfOk, IfSome, length, filter, position, slice_index};
ghost use Rattle.std.specs.List.{range_with_len};
ghost use Rattle.flux_model.specs.Tree.{least};
ghost use Rattle.query_tree.specs.Choice.{better};

use std::alloc::{AllocError, Global};

/// The number of the least key among those that pass the test, of equal keys the lowest; `None` where none passes.
///
/// The numbers are the places in `keys`, counted from 0.
pub fn least_by<P: Fn(usize) -> bool>(keys: &[u64], passes: P) -> Option<usize>
    requires { (k : ℕ) → k < length keys.now → P.pre passes k }
    ensures least { (test : ℕ → Bool) → ((k : ℕ) (b : Bool) → k < length keys.now → P.post passes k b → b ≡ test k)
        → result ≡ least (slice_index keys.now) (filter test (range_with_len 0 (length keys.now))) }
    ensures within { IfSome result (λ i. i < length keys.now) }
{
    let mut least = None;
    for i in 0..keys.len() {
        if passes(i) {
            least = Some(better(keys, least, i));
        }
    }
    least
}

/// Of `i` and the best before it, the one of the lower key, of equal keys the one before.
fn better(keys: &[u64], best: Option<usize>, i: usize) -> usize
    requires this { i < length keys.now }
    requires best { IfSome best (λ b. b < length keys.now) }
    ensures better { result ≡ better (slice_index keys.now) best i }
    ensures within { result < length keys.now }
{
    match best {
        Some(b) if keys[b] <= keys[i] => b,
        _ => i,
    }
}

/// The numbers below `count` that pass the test, ascending.
pub(crate) fn numbers_where<P: Fn(usize) -> bool>(
    alloc: Global,
    count: usize,
    passes: P,
) -> Result<Vec<usize>, AllocError>
    requires { (k : ℕ) → k < count → P.pre passes k }
    ensures { IfOk result (λ numbers. (test : ℕ → Bool) → ((k : ℕ) (b : Bool) → k < count → P.post passes k b → b ≡ test k)
        → numbers.items ≡ filter test (range_with_len 0 count)) }
{
    let mut numbers = Vec::new(alloc);
    for i in 0..count {
        if passes(i) {
            numbers.push(i)?;
        }
    }
    Ok(numbers)
}

/// The first place at which the number stands.
pub(crate) fn place_of(numbers: &[usize], number: usize) -> Option<usize>
    ensures { result ≡ position (λ n. n == number) numbers.now }
{
    numbers.iter().position(|n| *n == number)
}
