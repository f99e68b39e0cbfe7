//! Parts of a slice of bytes, and slices that have the same ones.
ghost use Rattle.std.specs.Prelude.{◌≡◌, ◌≤◌, ◌+◌, ◌↔◌, IsTrue, length, vec_len};
ghost use Rattle.disk_trait.specs.Calls.{bytes_at, overwritten};

/// Copies the bytes at this offset into all of `out`.
pub fn copy_out(bytes: &[u8], at: usize, out: &mut [u8])
    requires { at + length out.old ≤ length bytes.now }
    ensures { out.new ≡ bytes_at bytes.now at (length out.old) }
{
    let (_, rest) = bytes.split_at(at);
    let (front, _) = rest.split_at(out.len());
    out.copy_from_slice(front);
}

/// Writes these bytes at this offset, over those that are there.
pub fn overwrite(bytes: &mut Vec<u8>, at: usize, new: &[u8])
    requires { at + length new.now ≤ vec_len bytes.old }
    ensures { bytes.new.items ≡ overwritten at new.now bytes.old.items }
{
    // The length fits a `usize`, and so does the end of what is written.
    let _size = bytes.len();
    bytes[at..at + new.len()].copy_from_slice(new);
}

/// Whether two slices have the same bytes.
pub fn same_bytes(left: &[u8], right: &[u8]) -> bool
    ensures { IsTrue result ↔ (left.now ≡ right.now) }
{
    left == right
}
