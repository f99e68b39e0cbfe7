//! Pieces of the bytes of an extent. It takes so many media blocks as hold its bytes, and what lies behind them
//! in its last block means nothing.
ghost use Rattle.std.specs.Prelude.{◌≡◌, ◌≤◌, ◌+◌, true, length, is_ok, OnOk};
ghost use Rattle.disk_trait.specs.Calls.{DiskCall, Torn, TornWrite, Unchanged, bytes_at, overwritten};
ghost use Rattle.object_blobs.specs.Extents.{IsOnDevice, extent_bytes, extent_start};

use disk_trait::{Disk, Failed};
use media_rows::Extent;

/// The bytes of a media block.
pub const BLOCK: u64 = 4096;

/// Writes a piece of an extent's bytes, at this offset in them, where the media blocks begin at `area`.
/// Until a sync succeeds, a crash may leave any bytes in the piece's range. It takes no memory.
pub fn write_piece<D: Disk>(
    disk: &mut D,
    area: u64,
    extent: Extent,
    at: u64,
    piece: &[u8],
) -> Result<(), Failed>
    requires inside { at + length piece.now ≤ extent.length }
    requires device { IsOnDevice area extent (D.device disk.old).size }

    // The extent has the piece at its place, and no other byte of the file changes.
    ensures piece { (D.device disk.old).shows ≡ true → OnOk result
        (extent_bytes area extent (D.device disk.new).seen
        ≡ overwritten at piece.now (extent_bytes area extent (D.device disk.old).seen)) }
    ensures written { (D.device disk.old).shows ≡ true → OnOk result ((D.device disk.new).seen
        ≡ overwritten (extent_start area extent + at) piece.now (D.device disk.old).seen) }

    // It is one write: at each moment, and where it fails too, only the bytes of its range may differ. It
    // fails only where the count of faults rose.
    ensures torn { (D.device disk.old).shows ≡ true
        → Torn (extent_start area extent + at) (length piece.now)
        (D.device disk.old).seen (D.device disk.new).seen }
    ensures call { DiskCall (TornWrite (extent_start area extent + at) (length piece.now))
        (is_ok result) (D.device disk.old) (D.device disk.new) }
    ensures handed { (D.device disk.old).tells ≡ true → OnOk result
        ((D.device disk.new).handed ≡ (D.device disk.old).handed + length piece.now) }
    ensures handed_at_most { (D.device disk.old).tells ≡ true
        → (D.device disk.new).handed ≤ (D.device disk.old).handed + length piece.now }
{
    // What the device is known to hold fits a u64, and so does each place on it.
    let _size = disk.len();
    disk.write_at(area + BLOCK * extent.start + at, piece)
}

/// Reads a piece of an extent's bytes, from this offset in them on, into all of `out`, where the media
/// blocks begin at `area`. It takes no memory.
pub fn read_piece<D: Disk>(
    disk: &mut D,
    area: u64,
    extent: Extent,
    at: u64,
    out: &mut [u8],
) -> Result<(), Failed>
    requires inside { at + length out.old ≤ extent.length }
    requires device { IsOnDevice area extent (D.device disk.old).size }
    ensures piece { (D.device disk.old).shows ≡ true → OnOk result
        (out.new ≡ bytes_at (extent_bytes area extent (D.device disk.old).seen) at (length out.old)) }

    // It is one read: nothing changes, and it fails only where the count of faults rose.
    ensures call { DiskCall Unchanged (is_ok result) (D.device disk.old) (D.device disk.new) }
    ensures seen { (D.device disk.new).seen ≡ (D.device disk.old).seen }
    ensures handed { (D.device disk.new).handed ≡ (D.device disk.old).handed }
{
    // As in `write_piece`.
    let _size = disk.len();
    disk.read_at(area + BLOCK * extent.start + at, out)
}
