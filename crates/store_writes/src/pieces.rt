//! Pieces of objects' bytes: written where no stored object lies, and read.
ghost use Rattle.std.specs.Prelude.{◌≡◌, ◌≤◌, ◌+◌, ℕ, List, true, length, is_ok, OnOk};
ghost use Rattle.disk_trait.specs.Calls.{DiskCall, Torn, TornWrite, Unchanged, bytes_at, overwritten};
ghost use Rattle.object_blobs.specs.Extents.{IsOnDevice, extent_bytes, extent_start};
ghost use Rattle.store_states.specs.Kept.{AgreesWith, StoreView, kept_state};
ghost use Rattle.store_states.specs.States.{media_start};
ghost use Rattle.store_writes.specs.Writes.{IsFree, Keeps};

use disk_trait::{Disk, Failed};
use media_rows::Extent;
use object_blobs::{read_piece, write_piece};

/// Writes a piece of an extent's bytes, at this offset in them, where the media blocks begin at `area` and
/// no stored object has a block of the extent. It is one write, and it isn't synced. It takes no memory.
pub fn write_free<D: Disk>(
    disk: &mut D,
    area: u64,
    extent: Extent,
    at: u64,
    piece: &[u8],
) -> Result<(), Failed>
    requires inside { at + length piece.now ≤ extent.length }
    requires device { IsOnDevice area extent (D.device disk.old).size }

    // What is kept stays, also where the write fails, and at each moment a crash leaves its state.
    ensures keeps { (kept : StoreView) → (held : List (List ℕ)) → AgreesWith (D.device disk.old) kept held
        → area ≡ media_start kept.journal.half → IsFree kept.library.objects extent
        → Keeps kept held (D.device disk.old) (D.device disk.new) }

    ensures piece { (D.device disk.old).shows ≡ true → OnOk result
        (extent_bytes area extent (D.device disk.new).seen
        ≡ overwritten at piece.now (extent_bytes area extent (D.device disk.old).seen)) }
    ensures torn { (D.device disk.old).shows ≡ true
        → Torn (extent_start area extent + at) (length piece.now)
        (D.device disk.old).seen (D.device disk.new).seen }
    ensures call { DiskCall (TornWrite (extent_start area extent + at) (length piece.now))
        (is_ok result) (D.device disk.old) (D.device disk.new) }
    ensures handed { (D.device disk.old).tells ≡ true → OnOk result
        ((D.device disk.new).handed ≡ (D.device disk.old).handed + length piece.now) }
    ensures handed_at_most { (D.device disk.old).tells ≡ true
        → (D.device disk.new).handed ≤ (D.device disk.old).handed + length piece.now }
{
    write_piece(disk, area, extent, at, piece)
}

/// Reads a piece of an extent's bytes, from this offset in them on, into all of `out`, where the media
/// blocks begin at `area`. It is one read, and takes no memory.
pub fn read_kept<D: Disk>(
    disk: &mut D,
    area: u64,
    extent: Extent,
    at: u64,
    out: &mut [u8],
) -> Result<(), Failed>
    requires inside { at + length out.old ≤ extent.length }
    requires device { IsOnDevice area extent (D.device disk.old).size }

    // What is kept stays, also where the read fails.
    ensures keeps { (kept : StoreView) → (held : List (List ℕ)) → AgreesWith (D.device disk.old) kept held
        → Keeps kept held (D.device disk.old) (D.device disk.new) }

    ensures piece { (D.device disk.old).shows ≡ true → OnOk result
        (out.new ≡ bytes_at (extent_bytes area extent (D.device disk.old).seen) at (length out.old)) }
    ensures call { DiskCall Unchanged (is_ok result) (D.device disk.old) (D.device disk.new) }
    ensures seen { (D.device disk.new).seen ≡ (D.device disk.old).seen }
    ensures handed { (D.device disk.new).handed ≡ (D.device disk.old).handed }
{
    read_piece(disk, area, extent, at, out)
}
