//! The buffer that pieces of an input are read into.
ghost use Rattle.std.specs.Prelude.{◌≡◌, ◌≤◌, ◌<◌, max, min, IfOk, vec_len};

use std::alloc::{AllocError, Global};

/// The most bytes of a piece.
pub const PIECE: u64 = 65536;

/// A buffer for a piece. Its contract leaves out what it holds, which a proof would compute.
pub fn make_buffer(alloc: Global) -> Result<Vec<u8>, AllocError>
    ensures { IfOk result (λ buffer. vec_len buffer ≡ PIECE) }
{
    vec![in alloc; 0u8; PIECE as usize]
}

/// How many bytes the next read may give, where so many are left of the limit. Where none are left it is one, which tells whether
/// the input is longer than the limit.
pub fn ask_for(left: u64) -> usize
    ensures some { 0 < result }
    ensures fits { result ≤ PIECE }
    ensures within { result ≤ max left 1 }
    ensures exact { result ≡ min (max left 1) PIECE }
{
    left.clamp(1, PIECE) as usize
}
