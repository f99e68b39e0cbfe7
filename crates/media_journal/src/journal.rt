//! The journal behind the rows of the active half, to which records are added.
ghost use Rattle.std.specs.Prelude.{◌≡◌, ◌≤◌, ◌<◌, ◌+◌, ◌*◌, ◌∷◌, ◌↔◌, ◌^◌, [], ℕ, List, true, false, length, is_ok, OnOk, OnErr, IsErrOf};
ghost use Rattle.disk_trait.specs.Device.{may_leave, read_with};
ghost use Rattle.disk_trait.specs.Calls.{DiskCalls, Elapses, Follows, LeavesOnly, Torn, overwritten};
ghost use Rattle.media_journal.specs.Journal.{Contents, Gives, IsPosition, IsWhole, after_append, with_record};
ghost use Rattle.media_journal.specs.JournalMoments.{AppendEnds, EachGives, KeepsOrAdds, with_payload};
ghost use Rattle.media_journal.specs.Within.Steps.{RecordEnds, WithinRecord};

use crate::header::{BLOCK, MOST_HALF};
use crate::write::write_synced;
use crate::{AppendFault, Frame};
use disk_trait::{Disk, Failed};
use std::marker::Model;

/// Where the records of a file end, and how many bytes are left behind them in their half. It keeps no
/// payload: contracts speak of what the device's image gives up to the closed gate.
#[derive(Drop)]
pub struct Journal {
    pub(crate) blocks: u64,
    pub(crate) half: u64,
    pub(crate) start: u64,
    pub(crate) gate: u64,
    pub(crate) room: u64,
}

impl Model for Journal {
    ghost use Rattle.media_journal.specs.Journal.{Position, IsPosition};

    ghost Value = { Position };

    ghost view = { λ j. record {
      blocks = j.blocks;
      half = j.half;
      start = j.start;
      gate = j.gate;
      room = j.room;
    } };

    ghost invariant = { λ j. IsPosition record {
      blocks = j.blocks;
      half = j.half;
      start = j.start;
      gate = j.gate;
      room = j.room;
    } };
}

impl Journal {
    /// The bytes from the closed gate to the end of the half. A record takes its payload's length plus 5
    /// of them, and needs one more.
    pub fn room(&self) -> u64
        ensures room { result ≡ self.now.room }
        ensures most { result ≤ BLOCK * MOST_HALF }
    {
        self.room
    }

    /// The blocks of a half.
    pub fn half(&self) -> u64
        ensures half { result ≡ self.now.half }
        ensures most { result ≤ MOST_HALF }
    {
        self.half
    }

    /// Adds the frame's payload as the last record. Its bytes are synced before its gate is opened, and
    /// the open gate before the call answers. After `Disk` the journal must be opened again.
    pub fn append<D: Disk>(&mut self, disk: &mut D, frame: &Frame) -> Result<(), AppendFault>
        requires { BLOCK * self.old.blocks ≤ (D.device disk.old).size }

        // What doesn't fit is refused, and then nothing changes.
        ensures full { IsErrOf result AppendFault.Full ↔ (self.old.room < length frame.now + 6) }
        ensures refused { IsErrOf result AppendFault.Full → disk.new ≡ disk.old }
        ensures err { OnErr result (self.new ≡ self.old) }
        ensures position { IsPosition self.new }
        ensures whole { IsWhole self.old → IsWhole self.new }

        ensures moved { OnOk result (self.new ≡ after_append self.old (length frame.now)) }
        ensures content { (D.device disk.old).shows ≡ true → OnOk result
            ((held : Contents) → Gives (D.device disk.old).seen self.old held
            → Gives (D.device disk.new).seen self.new (with_payload self.old frame.now held)) }
        ensures written { (D.device disk.old).shows ≡ true → OnOk result
            ((D.device disk.new).seen
            ≡ with_record self.old.gate frame.now (D.device disk.old).seen) }
        ensures elsewhere { (D.device disk.old).shows ≡ true
            → OnOk result (Torn self.old.gate (length frame.now + 6)
            (D.device disk.old).seen (D.device disk.new).seen) }
        ensures handed { (D.device disk.old).tells ≡ true → OnOk result
            ((D.device disk.new).handed ≡ (D.device disk.old).handed + (length frame.now + 6)) }
        ensures handed_at_most { (D.device disk.old).tells ≡ true
            → (D.device disk.new).handed ≤ (D.device disk.old).handed + (length frame.now + 6) }

        // At each moment of the call a crash leaves an image that gives the records as they were, or
        // with the payload; after Ok nothing is pending, and each image has it. Other bytes may be
        // pending at the start.
        ensures moments { (D.device disk.old).honest ≡ true → (D.device disk.old).shows ≡ true
            → (held : Contents) → EachGives (D.device disk.old) self.old held
            → Elapses (KeepsOrAdds self.old frame.now held)
            (AppendEnds (is_ok result) self.old frame.now held)
            (D.device disk.old) (D.device disk.new) }
        ensures acknowledged { (D.device disk.old).honest ≡ true → (D.device disk.old).shows ≡ true
            → OnOk result ((held : Contents) → EachGives (D.device disk.old) self.old held
            → EachGives (D.device disk.new) self.new (with_payload self.old frame.now held)) }
        ensures durable { (D.device disk.old).honest ≡ true
            → OnOk result (LeavesOnly (D.device disk.new).seen (D.device disk.new)) }

        // After `Disk` a read gives what a crash might have left before, where only the bytes of the record
        // and of the gate behind it may differ, with the records as they were, or with the payload. Where
        // the device isn't honest nothing is said: there a sync that fails leaves open what is read.
        ensures left { (D.device disk.old).honest ≡ true → (D.device disk.old).shows ≡ true
            → IsErrOf result AppendFault.Disk
            → (held : Contents) → EachGives (D.device disk.old) self.old held
            → (told : List (List ℕ)) × Follows (KeepsOrAdds self.old frame.now held)
            (may_leave (D.device disk.old)) (read_with (D.device disk.new) told) }

        ensures calls { OnOk result (DiskCalls true (D.device disk.old) (D.device disk.new)) }

        // The bytes, a sync, the gate, a sync, and no further call.
        ensures four_calls { (D.device disk.new).moment ≤ (D.device disk.old).moment + 4 }

        // It doesn't give up by itself: the count of faults rose.
        ensures failed { IsErrOf result AppendFault.Disk
            → DiskCalls false (D.device disk.old) (D.device disk.new) }
    {
        let bytes = frame.bytes();
        let length = bytes.len() as u64;
        if length >= self.room {
            return Err(AppendFault::Full);
        }
        write_record(disk, self.gate, bytes)?;
        self.gate += length;
        self.room -= length;
        Ok(())
    }
}

/// Writes a frame behind its closed gate, and then opens the gate.
fn write_record<D: Disk>(disk: &mut D, gate: u64, frame: &[u8]) -> Result<(), Failed>
    requires within { gate + 1 + length frame.now ≤ (D.device disk.old).size }
    requires small { gate < 2 ^ 63 }
    ensures calls { DiskCalls (is_ok result) (D.device disk.old) (D.device disk.new) }
    ensures written { (D.device disk.old).shows ≡ true → OnOk result ((D.device disk.new).seen
        ≡ overwritten gate (1 ∷ []) (overwritten (gate + 1) frame.now (D.device disk.old).seen)) }
    ensures torn { (D.device disk.old).shows ≡ true → OnOk result
        (Torn gate (length frame.now + 1) (D.device disk.old).seen (D.device disk.new).seen) }
    ensures handed { (D.device disk.old).tells ≡ true → OnOk result
        ((D.device disk.new).handed ≡ (D.device disk.old).handed + (length frame.now + 1)) }
    ensures handed_at_most { (D.device disk.old).tells ≡ true
        → (D.device disk.new).handed ≤ (D.device disk.old).handed + (length frame.now + 1) }
    ensures durable { (D.device disk.old).honest ≡ true
        → OnOk result (LeavesOnly (D.device disk.new).seen (D.device disk.new)) }
    ensures four_calls { (D.device disk.new).moment ≤ (D.device disk.old).moment + 4 }
    ensures moments { (D.device disk.old).honest ≡ true → (D.device disk.old).shows ≡ true
        → Elapses (WithinRecord gate frame.now (D.device disk.old).seen)
        (RecordEnds (is_ok result) gate frame.now (D.device disk.old).seen)
        (D.device disk.old) (D.device disk.new) }
{
    // The frame has to be on the disk first: behind a gate that is open, what was there would count.
    write_synced(disk, gate + 1, frame)?;
    write_synced(disk, gate, &[1])
}
