//! Serials over all rows.
ghost use Rattle.std.specs.Prelude.{◌≡◌, ◌++◌, ℕ, IfOk, OnOk, map};
ghost use Rattle.media_rows.specs.Good.{are_serials_good};
ghost use Rattle.media_rows.specs.Library.{serials_of};
ghost use Rattle.core_restore.specs.Within.{library_from_kinds, rise_within};

use core_rows::Kinds;
use disk_trait::Memory;
use media_rows::{DeleteRow, EventRow, HookRow, ObjectRow, SegmentRow};
use std::alloc::Global;

/// The last serial that a library may come to.
const LAST_SERIAL: u64 = 9_223_372_036_854_775_807;

/// Whether serials are at least 1, distinct over all rows, and below the next one, which has a limit.
pub(crate) fn are_serials_good(
    alloc: Global,
    kinds: &Kinds,
    next_serial: u64,
) -> Result<bool, Memory>
    ensures { IfOk result (λ good. good
        ≡ are_serials_good next_serial (serials_of (library_from_kinds 0 0 next_serial kinds.now))) }
{
    let mut serials = all_serials(alloc, kinds)?;
    serials.sort()?;
    Ok(rise_within(next_serial, &serials))
}

/// Whether numbers from 1 on rise up to the next serial, and it isn't past the last.
fn rise_within(next_serial: u64, serials: &[u64]) -> bool
    ensures { result ≡ rise_within next_serial serials.now }
{
    let mut last = 0;
    for serial in serials {
        if *serial <= last {
            return false;
        }
        last = *serial;
    }
    last < next_serial && next_serial <= LAST_SERIAL
}

/// The serials of all rows, kind by kind.
fn all_serials(alloc: Global, kinds: &Kinds) -> Result<Vec<u64>, Memory>
    ensures { IfOk result
        (λ serials. serials.items ≡ serials_of (library_from_kinds 0 0 0 kinds.now)) }
{
    let mut serials = Vec::new(alloc);
    append_serials(kinds.objects.items(), &mut serials)?;
    append_serials(kinds.segments.items(), &mut serials)?;
    append_serials(kinds.requests.items(), &mut serials)?;
    append_serials(kinds.hooks.items(), &mut serials)?;
    append_serials(kinds.events.items(), &mut serials)?;
    Ok(serials)
}

/// Adds the serials of rows of one kind.
fn append_serials<T: Numbered>(rows: &[T], serials: &mut Vec<u64>) -> Result<(), Memory>
    ensures { OnOk result (serials.new.items ≡ serials.old.items ++ map T.serial_of rows.now) }
{
    for row in rows {
        serials.push(row.serial())?;
    }
    Ok(())
}

/// A row that has a serial.
trait Numbered {
    ghost serial_of: { Self → ℕ };

    fn serial(&self) -> u64
        ensures { result ≡ serial_of self.now };
}

impl Numbered for ObjectRow {
    ghost serial_of = { λ row. row.serial };

    fn serial(&self) -> u64 {
        self.serial
    }
}

impl Numbered for SegmentRow {
    ghost serial_of = { λ row. row.serial };

    fn serial(&self) -> u64 {
        self.serial
    }
}

impl Numbered for DeleteRow {
    ghost serial_of = { λ row. row.serial };

    fn serial(&self) -> u64 {
        self.serial
    }
}

impl Numbered for HookRow {
    ghost serial_of = { λ row. row.serial };

    fn serial(&self) -> u64 {
        self.serial
    }
}

impl Numbered for EventRow {
    ghost serial_of = { λ row. row.serial };

    fn serial(&self) -> u64 {
        self.serial
    }
}
