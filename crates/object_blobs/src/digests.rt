//! Digests of the bytes of extents.
ghost use Rattle.std.specs.Prelude.{◌≡◌, true, IfOk, is_ok};
ghost use Rattle.disk_trait.specs.Calls.{DiskReads};
ghost use Rattle.media_rows.specs.Digests.{digest_of};
ghost use Rattle.object_blobs.specs.Extents.{IsOnDevice, extent_bytes};

use crate::extent::read_piece;
use disk_trait::{Disk, Failed};
use media_rows::{Digest, Extent};
use sha2::{Digest as _, Sha256};

/// Bytes are read in pieces of so many at most.
const PIECE: usize = 65_536;

/// The digest of an extent's bytes, where the media blocks begin at `area`. It reads them once, in pieces of 65,536
/// bytes on the stack, and takes no memory.
pub fn extent_digest<D: Disk>(disk: &mut D, area: u64, extent: Extent) -> Result<Digest, Failed>
    requires device { IsOnDevice area extent (D.device disk.old).size }
    ensures found { (D.device disk.old).shows ≡ true → IfOk result
        (λ digest. digest ≡ digest_of (extent_bytes area extent (D.device disk.old).seen)) }

    // Nothing changes, and it fails only where the count of faults rose.
    ensures reads { DiskReads (is_ok result) (D.device disk.old) (D.device disk.new) }
{
    let mut hasher = Sha256::new();
    let mut room = [0u8; PIECE];
    let mut at = 0;
    'pieces: while at < extent.length {
        let count = (extent.length - at).min(PIECE as u64);
        let piece = &mut room[..count as usize];
        read_piece(disk, area, extent, at, piece)?;
        hasher.update(piece);
        at += count;
    }
    Ok(Digest::from_hash(hasher.finalize()))
}
