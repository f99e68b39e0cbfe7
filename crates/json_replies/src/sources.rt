//! Sources.
ghost use Rattle.std.specs.Prelude.{◌≡◌, ◌++◌};
ghost use Rattle.json_replies.specs.Rows.{source_value};

use crate::json_text::JsonText;
use crate::lists::Tags;
use crate::shows::{Shows, show_if_any, show_if_set, show_member};
use crate::values::{Formats, Ids, Moments, Texts};
use disk_trait::Memory;
use media_rows::SourceRow;
use std::alloc::Global;

/// Sources.
pub(crate) struct Sources;

impl Shows<SourceRow> for Sources {
    ghost shown = { λ _. source_value };

    #[tactic(auto, unfolding(crate::specs::Rows::source_value))]
    fn show(&self, alloc: Global, row: &SourceRow, out: &mut JsonText) -> Result<(), Memory> {
        out.begin_object()?;
        show_member(alloc, "created", &row.created, &Moments, out)?;
        show_if_set(alloc, "description", &row.description, &Texts, out)?;
        show_member(alloc, "format", &row.format, &Formats, out)?;
        show_member(alloc, "id", &row.id, &Ids, out)?;
        show_if_set(alloc, "label", &row.label, &Texts, out)?;
        show_if_any(alloc, "tags", &row.tags, &Tags, out)?;
        show_member(alloc, "updated", &row.updated, &Moments, out)?;
        out.end_object()
    }
}
