//! Parts of flows and sources, each by its value alone.
ghost use Rattle.std.specs.Prelude.{◌≡◌, OnOk};
ghost use Rattle.json_replies.specs.Replies.{if_set, part_value};
ghost use Rattle.json_replies.specs.Shapes.{Appends};

use crate::json_text::JsonText;
use crate::lists::{Collections, TagValues};
use crate::shows::Shows;
use crate::values::{Numbers, Texts};
use disk_trait::Memory;
use media_rows::Part;
use std::alloc::Global;

/// Appends the value of a part, where it is set.
pub(crate) fn show_part(alloc: Global, part: &Part, out: &mut JsonText) -> Result<(), Memory>
    ensures { OnOk result (Appends out.old out.new (part_value part.now)) }
{
    match part {
        Part::Tag(_, tag) => show_set(alloc, tag, &TagValues, out),
        Part::Label(text) | Part::Description(text) => show_set(alloc, text, &Texts, out),
        Part::ReadOnly(mark) => out.truth(*mark),
        Part::Collection(members) => Collections.show(alloc, members, out),
        Part::MaxBitRate(rate) | Part::AvgBitRate(rate) => show_set(alloc, rate, &Numbers, out),
    }
}

/// Appends a value where it is set.
fn show_set<T, S: Shows<T>>(
    alloc: Global,
    value: &Option<T>,
    shows: &S,
    out: &mut JsonText,
) -> Result<(), Memory>
    ensures { OnOk result (Appends out.old out.new (if_set (S.shown shows.now) value.now)) }
{
    match value {
        Some(value) => shows.show(alloc, value, out),
        None => Ok(()),
    }
}
