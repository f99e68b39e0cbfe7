//! Rows as text.
ghost use Rattle.std.specs.Prelude.{◌≡◌, ◌∷◌, [], OnErr, OnOk, length, map, take};
ghost use Rattle.media_rows.specs.declared.row.Row.{Row};
ghost use Rattle.media_rows.specs.declared.row.Row.TheVariants as rows;
ghost use Rattle.core_rows.specs.Texts.{AddsRows};

use change_codec::{encode_row, encode_row_if_spelled};
use disk_trait::{Duplicate, Memory, Text};
use field_codec::cut_back;
use media_rows::{DeleteRow, EventRow, FlowRow, HookRow, ObjectRow, Row, SegmentRow, SourceRow};
use std::alloc::Global;

/// What is one kind of row.
pub trait AnyRow: Duplicate {
    ghost as_row: { Self → Row };

    /// It as a row.
    fn into_row(self) -> Row
        ensures { result ≡ as_row self };
}

impl AnyRow for SourceRow {
    ghost as_row = { rows.Source };

    fn into_row(self) -> Row {
        Row::Source(self)
    }
}

impl AnyRow for FlowRow {
    ghost as_row = { rows.Flow };

    fn into_row(self) -> Row {
        Row::Flow(self)
    }
}

impl AnyRow for ObjectRow {
    ghost as_row = { rows.Object };

    fn into_row(self) -> Row {
        Row::Object(self)
    }
}

impl AnyRow for SegmentRow {
    ghost as_row = { rows.Segment };

    fn into_row(self) -> Row {
        Row::Segment(self)
    }
}

impl AnyRow for DeleteRow {
    ghost as_row = { rows.Request };

    fn into_row(self) -> Row {
        Row::Request(self)
    }
}

impl AnyRow for HookRow {
    ghost as_row = { rows.Hook };

    fn into_row(self) -> Row {
        Row::Hook(self)
    }
}

impl AnyRow for EventRow {
    ghost as_row = { rows.Event };

    fn into_row(self) -> Row {
        Row::Event(self)
    }
}

/// Adds the text of rows of one kind at the end. A row that has no spelling is want of memory, after which
/// the text is as it was.
pub fn append_rows<T: AnyRow>(alloc: Global, list: &[T], text: &mut Text) -> Result<(), Memory>
    ensures ok { OnOk result (AddsRows text.old (map T.as_row list.now) text.new) }
    ensures err { OnErr result (text.new ≡ text.old) }
{
    let before = text.bytes().len();
    match add_rows(alloc, list, text) {
        Ok(()) => Ok(()),
        Err(fault) => {
            cut_back(alloc, text, before);
            Err(fault)
        }
    }
}

/// Adds the text of rows at the end. After an error some of them may stand there.
fn add_rows<T: AnyRow>(alloc: Global, list: &[T], text: &mut Text) -> Result<(), Memory>
    ensures ok { OnOk result (AddsRows text.old (map T.as_row list.now) text.new) }
    ensures front { OnErr result (take (length text.old) text.new ≡ text.old) }
{
    for item in list {
        let row = item.duplicate(alloc)?.into_row();
        if !encode_row_if_spelled(alloc, &row, text)? {
            return Err(Memory);
        }
    }
    Ok(())
}

/// Adds the text of the row of numbers, the last one of a snapshot.
pub fn append_next_serial(alloc: Global, next_serial: u64, text: &mut Text) -> Result<(), Memory>
    ensures ok { OnOk result (AddsRows text.old (rows.Numbers next_serial ∷ []) text.new) }
    ensures err { OnErr result (text.new ≡ text.old) }
{
    encode_row(alloc, &Row::Numbers { next_serial }, text)
}
