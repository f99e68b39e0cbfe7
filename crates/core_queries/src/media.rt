//! What is shown of segments and of objects.
ghost use Rattle.std.specs.Prelude.{Ok};
ghost use Rattle.media_rows.specs.declared.refusal.Refusal.TheVariants.{NoFlow, UnknownObject};
ghost use Rattle.media_rows.specs.Catalog.{flow_of};
ghost use Rattle.media_rows.specs.Objects.{object_of};
ghost use Rattle.media_rows.specs.Segments.{overlapping};
ghost use Rattle.media_rows.specs.Views.{kept_or, shown_object, shown_segments};
ghost use Rattle.core_views.specs.Shown.{IsShown};

use core_parts::Parts;
use disk_trait::Text;
use media_rows::{BookFault, Page, Refusal, SegmentFilter, View};
use std::alloc::Global;

/// A page of the segments of a flow that have a point in a range and name an object, where one is asked for; or
/// `NoFlow`.
pub(crate) fn segments_view(
    alloc: Global,
    parts: &Parts,
    flow: u128,
    wanted: &SegmentFilter,
    page: &Page,
) -> Result<View, BookFault>
    ensures { IsShown (kept_or NoFlow (λ row. Ok (shown_segments page.now
        (overlapping parts.now.library.segments flow wanted.now.range wanted.now.object)))
        (flow_of flow parts.now.library.catalog.flows)) result }
{
    match parts.registry().catalog().flow(flow) {
        None => Err(BookFault::Refused(Refusal::NoFlow)),
        Some(_) => Ok(parts.media().page(alloc, flow, wanted, page)?),
    }
}

/// An object with the flows whose segments name it, or `UnknownObject`.
pub(crate) fn object_view(alloc: Global, parts: &Parts, id: &Text) -> Result<View, BookFault>
    ensures { IsShown (kept_or UnknownObject (λ row. Ok (shown_object parts.now.library row))
        (object_of id.now parts.now.library.objects)) result }
{
    match parts.media().shown_object(alloc, id)? {
        None => Err(BookFault::Refused(Refusal::UnknownObject)),
        Some(view) => Ok(view),
    }
}
