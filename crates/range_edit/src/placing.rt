//! Where the range of a row comes to stand, and whether it may.
ghost use Rattle.std.specs.Prelude.{◌↔◌, IfErr, IfOk, IfSome, IsNone, IsTrue};
ghost use Rattle.range_edit.specs.Assembling.{PassesLimit};
ghost use Rattle.range_edit.specs.Within.Cutting.{HasRate, IsPlaceOf, IsPlaced, IsTarget, MayRefuse, MayRefuseFlow, StandsOverPlace};

use crate::fault::EditFault;
use crate::flows::{flow_seen, is_occupied};
use crate::list::EditRow;
use media_rows::{FormatKind, range_overlaps};
use segment_pieces::{Clip, Rate, moved, shift_to};
use std::alloc::Global;
use store_core::Core;
use time_range::{TimeRange, Ts};

/// The flow for which pieces are cut, and its format.
#[derive(Clone, Copy)]
pub(crate) struct Target {
    pub(crate) flow: u128,
    pub(crate) format: FormatKind,
}

/// What a row takes, and where its range comes to stand.
#[derive(Clone, Copy)]
pub(crate) struct Placed {
    pub(crate) clip: Clip,
    pub(crate) place: TimeRange,
}

/// The clip and the place of a row with this number, behind rows of these places; or the first reason why it has none.
pub(crate) fn place_row(
    alloc: Global,
    core: &Core,
    target: &Target,
    places: &[TimeRange],
    row: &EditRow,
    number: u64,
) -> Result<Placed, EditFault>
    requires target { IsTarget core.now.library target.now }
    ensures placed { IfOk result
        (IsPlaced core.now.library target.now.flow places.now row.now) }
    ensures fault { IfErr result
        (MayRefuse core.now.library target.now.flow places.now row.now number) }
{
    let rate = rate_for(alloc, core, target, row, number)?;
    let Some((shift, place)) = place_of(row) else {
        return Err(EditFault::TooFar(number));
    };
    if stands_over(places, &place) {
        return Err(EditFault::RowsOverlap(number));
    }
    if is_occupied(alloc, core, target.flow, &place)? {
        return Err(EditFault::Occupied(number));
    }
    let clip = Clip {
        range: row.range,
        shift,
        rate,
    };
    Ok(Placed { clip, place })
}

/// The rate of a row's flow, where it tells one. The flow has to be kept, and of the target's format.
fn rate_for(
    alloc: Global,
    core: &Core,
    target: &Target,
    row: &EditRow,
    number: u64,
) -> Result<Option<Rate>, EditFault>
    requires target { IsTarget core.now.library target.now }
    ensures rate { IfOk result (HasRate core.now.library target.now.flow row.now) }
    ensures fault { IfErr result
        (MayRefuseFlow core.now.library target.now.flow row.now number) }
{
    match flow_seen(alloc, core, row.flow)? {
        None => Err(EditFault::NoFlow(number)),
        Some(seen) => {
            if seen.format == target.format {
                Ok(seen.rate)
            } else {
                Err(EditFault::FormatDiffers(number))
            }
        }
    }
}

/// By how much the range of a row is moved, and where it comes to stand; `None` exactly where it passes the limit.
fn place_of(row: &EditRow) -> Option<(Ts, TimeRange)>
    ensures place { IfSome result (λ found. IsPlaceOf row.now found.0 found.1) }
    ensures within { IfSome result (λ found. ¬ (PassesLimit row.now)) }
    ensures none { IsNone result → PassesLimit row.now }
{
    let shift = shift_to(row.at, &row.range)?;
    let place = moved(&row.range, shift)?;
    Some((shift, place))
}

/// Whether a range has a point in one of these places.
fn stands_over(places: &[TimeRange], range: &TimeRange) -> bool
    ensures { IsTrue result ↔ StandsOverPlace places.now range.now }
{
    for place in places {
        if range_overlaps(place, range) {
            return true;
        }
    }
    false
}
