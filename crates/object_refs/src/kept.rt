//! An object with the references to it.
ghost use Rattle.std.specs.Prelude.{◌≡◌};
ghost use Rattle.object_refs.specs.Within.Books.{idle_key, idle_key_of};

use crate::flows::FlowCounts;
use crate::keys::number_key;
use media_rows::ObjectRow;

/// A kept object, and the flows that refer to it.
#[derive(Drop)]
pub(crate) struct Kept {
    pub(crate) row: ObjectRow,
    pub(crate) flows: FlowCounts,
}

impl Kept {
    /// Its key in the order of sweeps, where nothing refers to it.
    pub(crate) fn idle_key(&self) -> Option<i128>
        ensures { result ≡ idle_key_of self.now }
    {
        if self.flows.len() == 0 {
            Some(idle_key(self.row.idle_since, self.row.serial))
        } else {
            None
        }
    }
}

/// The key in the order of sweeps: by idle moment, and then by serial.
fn idle_key(moment: u64, serial: u64) -> i128
    ensures { result ≡ idle_key moment serial }
{
    const SERIALS: u128 = 1 << 64;
    number_key(moment as u128 * SERIALS + serial as u128)
}
