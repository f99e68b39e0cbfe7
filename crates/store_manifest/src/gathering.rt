//! The manifest of a flow, page by page.
ghost use Rattle.std.specs.Prelude.{◌≡◌, ◌++◌, List, IfErr, IfOk, IsSome, OnOk, filter};
ghost use Rattle.hls_manifest.specs.Entries.{is_whole, whole_objects};
ghost use Rattle.hls_manifest.specs.Manifests.{IsManifestOf};
ghost use Rattle.media_rows.specs.Catalog.{flow_of};
ghost use Rattle.media_rows.specs.declared.segment.SegmentRow.{SegmentRow};
ghost use Rattle.segment_pages.specs.Pages.{RefusesFlow};

use disk_trait::{Memory, Text};
use hls_manifest::Manifest;
use media_rows::{BookFault, SegmentRow};
use segment_pages::read_segments;
use std::alloc::Global;
use store_core::Core;
use time_range::TimeRange;

/// The manifest of the segments of a flow that show whole objects within a range, behind a base of their addresses.
/// `NoFlow` comes exactly where the flow isn't kept.
pub fn manifest_of(
    alloc: Global,
    core: &Core,
    base: &Text,
    flow: u128,
    range: &TimeRange,
) -> Result<Manifest, BookFault>
    ensures manifest { IfOk result
        (IsManifestOf (whole_objects core.now.library.segments flow range.now)) }
    ensures base { IfOk result (λ manifest. manifest.base ≡ base.now) }
    ensures kept { OnOk result (IsSome (flow_of flow core.now.library.catalog.flows)) }
    ensures refused { IfErr result (RefusesFlow core.now.library flow) }
{
    let mut manifest = Manifest::new(alloc, base)?;
    let mut after = None;
    loop {
        let read = read_segments(alloc, core, flow, range, after)?;
        push_all(
            alloc,
            &mut manifest,
            &read.rows.items()[..read.count],
            range,
        )?;
        if read.next.is_none() {
            return Ok(manifest);
        }
        after = read.next;
    }
}

/// Adds those of these segments that show whole objects within the range.
fn push_all(
    alloc: Global,
    manifest: &mut Manifest,
    rows: &[SegmentRow],
    range: &TimeRange,
) -> Result<(), Memory>
    ensures base { manifest.new.base ≡ manifest.old.base }
    ensures named { OnOk result ((before : List SegmentRow) → IsManifestOf before manifest.old
        → IsManifestOf (before ++ filter (is_whole range.now) rows.now) manifest.new) }
{
    for row in rows {
        manifest.push(alloc, row, range)?;
    }
    Ok(())
}
