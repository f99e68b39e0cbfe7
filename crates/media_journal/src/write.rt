//! A write that is synced before anything else is done.
ghost use Rattle.std.specs.Prelude.{◌≡◌, ◌≤◌, ◌+◌, true, length, is_ok, OnOk};
ghost use Rattle.disk_trait.specs.Calls.{DiskCalls, Elapses, LeavesOnly, Torn, TornWrite, overwritten};
ghost use Rattle.media_journal.specs.Within.Steps.{SyncedWriteEnds};

use disk_trait::{Disk, Failed};

/// Writes these bytes and waits until they are on the disk. Where it fails, a crash may leave any bytes
/// in their place.
pub(crate) fn write_synced<D: Disk>(disk: &mut D, at: u64, bytes: &[u8]) -> Result<(), Failed>
    requires { at + length bytes.now ≤ (D.device disk.old).size }
    ensures calls { DiskCalls (is_ok result) (D.device disk.old) (D.device disk.new) }
    ensures written { (D.device disk.old).shows ≡ true → OnOk result
        ((D.device disk.new).seen ≡ overwritten at bytes.now (D.device disk.old).seen) }
    ensures torn { (D.device disk.old).shows ≡ true → OnOk result
        (Torn at (length bytes.now) (D.device disk.old).seen (D.device disk.new).seen) }
    ensures handed { (D.device disk.old).tells ≡ true → OnOk result
        ((D.device disk.new).handed ≡ (D.device disk.old).handed + length bytes.now) }
    ensures handed_at_most { (D.device disk.old).tells ≡ true
        → (D.device disk.new).handed ≤ (D.device disk.old).handed + length bytes.now }
    ensures durable { (D.device disk.old).honest ≡ true
        → OnOk result (LeavesOnly (D.device disk.new).seen (D.device disk.new)) }
    ensures two_calls { (D.device disk.new).moment ≤ (D.device disk.old).moment + 2 }
    ensures moments { (D.device disk.old).honest ≡ true → (D.device disk.old).shows ≡ true
        → Elapses (TornWrite at (length bytes.now))
        (SyncedWriteEnds (is_ok result) at bytes.now (D.device disk.old).seen)
        (D.device disk.old) (D.device disk.new) }
    ensures time { Elapses (TornWrite at (length bytes.now)) (TornWrite at (length bytes.now))
        (D.device disk.old) (D.device disk.new) }
{
    disk.write_at(at, bytes)?;
    disk.sync()
}
