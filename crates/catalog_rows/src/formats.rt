//! Formats of sources and flows: which flow may stand under a source, and which one may replace
//! another.
ghost use Rattle.std.specs.Prelude.{◌≡◌, option_copied};
ghost use Rattle.media_rows.specs.Catalog.{fits_format, fits_source, keeps_flow, same_format};
ghost use Rattle.media_rows.specs.Good.{fits_kept};

use media_rows::{FlowBody, FlowRow, FormatKind, SourceRow};

/// Whether two formats are the same.
pub(crate) fn same_format(a: FormatKind, b: FormatKind) -> bool
    ensures { result ≡ same_format a b }
{
    a.number() == b.number()
}

/// Whether a flow's format may stand under a source of another.
fn fits_format(source: FormatKind, flow: FormatKind) -> bool
    ensures { result ≡ fits_format source flow }
{
    same_format(flow, source) || same_format(flow, FormatKind::Multi)
}

/// Whether a flow may be put under its source, where that is kept.
pub fn fits_source(source: Option<&SourceRow>, body: &FlowBody) -> bool
    ensures { result ≡ fits_source (option_copied source.entry) body.now }
{
    match source {
        None => true,
        Some(kept) => fits_format(kept.format, body.format),
    }
}

/// Whether a flow's source is kept, and the flow may stand under it.
pub fn fits_kept(source: Option<&SourceRow>, row: &FlowRow) -> bool
    ensures { result ≡ fits_kept (option_copied source.entry) row.now }
{
    match source {
        None => false,
        Some(kept) => fits_format(kept.format, row.body.format),
    }
}

/// Whether a flow that is put keeps the source and the format of the kept one.
pub fn keeps_flow(old: &FlowBody, new: &FlowBody) -> bool
    ensures { result ≡ keeps_flow old.now new.now }
{
    new.source == old.source && same_format(new.format, old.format)
}
