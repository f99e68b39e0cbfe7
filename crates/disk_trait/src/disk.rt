//! A file of fixed size as the store sees it.
ghost use Rattle.std.specs.Prelude.{◌≡◌, ◌≤◌, ◌+◌, ℕ, Bool, true, length, is_ok, OnOk};
ghost use Rattle.disk_trait.specs.Device.{Device, IsDevice};
ghost use Rattle.disk_trait.specs.Calls.{DiskRequest, ReadAt, WriteAt, SyncAll, bytes_at, overwritten, Torn, TornWrite, Unchanged, DiskCall, LeavesOnly};

use crate::Failed;

/// A device of so many bytes. Each call answers `Failed` only where the count of faults rose in it, or
/// stands at the last value of a `u64`.
///
/// The meaning of a device is one record, `device`: what it shows, what it counts, and what a crash at
/// each moment may leave. Where it doesn't show its bytes, or isn't honest, the clauses on them promise
/// nothing.
pub trait Disk {
    ghost device: { Self → Device };

    /// What more a device says of when its calls fail and what they leave: what the call asked for, the
    /// value before, the value after, and whether the call succeeded.
    ghost fails: { DiskRequest → Self → Self → Bool → Type 0 };

    /// The length in bytes.
    fn len(&self) -> u64
        ensures { result ≡ (device self.now).size };

    /// Reads the bytes at this offset into all of `out`.
    fn read_at(&mut self, at: u64, out: &mut [u8]) -> Result<(), Failed>
        requires { at + length out.old ≤ (device self.old).size }
        ensures call { DiskCall Unchanged (is_ok result) (device self.old) (device self.new) }
        ensures read { (device self.old).shows ≡ true
            → OnOk result (out.new ≡ bytes_at (device self.old).seen at (length out.old)) }
        ensures seen { (device self.new).seen ≡ (device self.old).seen }
        ensures handed { (device self.new).handed ≡ (device self.old).handed }
        ensures fails { fails (ReadAt at (length out.old)) self.old self.new (is_ok result) };

    /// Writes these bytes at this offset. Until a sync succeeds, a crash may leave any bytes in the range.
    fn write_at(&mut self, at: u64, bytes: &[u8]) -> Result<(), Failed>
        requires { at + length bytes.now ≤ (device self.old).size }
        ensures call { DiskCall (TornWrite at (length bytes.now)) (is_ok result)
            (device self.old) (device self.new) }
        ensures written { (device self.old).shows ≡ true
            → OnOk result ((device self.new).seen
            ≡ overwritten at bytes.now (device self.old).seen) }
        ensures torn { (device self.old).shows ≡ true
            → Torn at (length bytes.now) (device self.old).seen (device self.new).seen }
        ensures handed { (device self.old).tells ≡ true
            → OnOk result ((device self.new).handed ≡ (device self.old).handed + length bytes.now) }
        ensures handed_at_most { (device self.old).tells ≡ true
            → (device self.new).handed ≤ (device self.old).handed + length bytes.now }
        ensures fails { fails (WriteAt at bytes.now) self.old self.new (is_ok result) };

    /// Waits until all that was written is on the disk: a crash then leaves what a read gives.
    fn sync(&mut self) -> Result<(), Failed>
        ensures call { DiskCall Unchanged (is_ok result) (device self.old) (device self.new) }
        ensures seen { OnOk result ((device self.new).seen ≡ (device self.old).seen) }
        ensures durable { (device self.old).honest ≡ true
            → OnOk result (LeavesOnly (device self.new).seen (device self.new)) }
        ensures handed { (device self.new).handed ≡ (device self.old).handed }
        ensures fails { fails SyncAll self.old self.new (is_ok result) };

    /// What holds of every device at every moment.
    ghost sound: { (disk : Self) → IsDevice (device disk) };
}
