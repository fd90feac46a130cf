// What a read from memory does to a buffer.
ghost use Rattle.std.specs.Prelude.{◌≡◌, length, take, min};

/// Copies bytes from the front to the front of a buffer, as many as fit and at most `most`. It says
/// how many.
pub fn copy_front(bytes: &[u8], most: usize, buf: &mut [u8]) -> usize
    ensures count { result ≡ min (min (length buf.old) (length bytes.now)) most }
    ensures given { take result buf.new ≡ take result bytes.now }
{
    let count = buf.len().min(bytes.len()).min(most);
    buf[..count].copy_from_slice(&bytes[..count]);
    count
}
