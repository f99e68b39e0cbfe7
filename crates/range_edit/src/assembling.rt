//! Cuts a flow from ranges of others, row by row of a list.
ghost use Rattle.std.specs.Prelude.{◌≡◌, ◌+◌, ◌⊎◌, All, IfErr, IfOk, IsTrue, OnOk, false, length, true};
ghost use Rattle.media_rows.specs.Ranges.{has_both_ends};
ghost use Rattle.range_edit.specs.Assembling.{FirstRefused, IsCutFor, IsCuttingFault, IsUnkept};
ghost use Rattle.range_edit.specs.Lists.{IsBoundedRow};
ghost use Rattle.range_edit.specs.Within.Cutting.{CutsRow, HasCut, IsTarget, MayRefuseTaking, RefusesRow, TakesRow};
ghost use Rattle.time_range.specs.Points.{StaysWithin};

use crate::fault::EditFault;
use crate::flows::kept_flow;
use crate::list::{EditList, EditRow};
use crate::pieces::{Pieces, take_all};
use crate::placing::{Target, place_row};
use disk_trait::Listed;
use media_rows::PostList;
use segment_pieces::{Clip, PieceFault};
use std::alloc::Global;
use store_core::Core;
use time_range::TimeRange;

/// How far the cutting has come: where the ranges of the rows so far stand, and their pieces.
#[derive(Drop)]
struct Cutting {
    places: Listed<TimeRange>,
    pieces: Pieces,
}

/// Cuts pieces for a target: what the rows of a list take of their flows, in the list's order. A target that isn't kept
/// is told first, then the first row that is refused, then that there are more than 1,000 pieces.
pub fn assemble(
    alloc: Global,
    core: &Core,
    target: u128,
    list: &EditList,
) -> Result<PostList, EditFault>
    requires bounded { All IsBoundedRow list.now }
    ensures cut { IfOk result (IsCutFor core.now.library target list.now) }
    ensures fault { IfErr result (IsCuttingFault core.now.library target list.now) }
{
    let Some(kept) = kept_flow(alloc, core, target)? else {
        return Err(EditFault::NoFlow(0));
    };
    let target = Target {
        flow: target,
        format: kept.body.format,
    };
    let cutting = cut_rows(alloc, core, &target, list.items())?;
    if cutting.pieces.many {
        Err(EditFault::TooMany)
    } else {
        Ok(cutting.pieces.posts)
    }
}

/// Cuts the pieces of all rows.
fn cut_rows(
    alloc: Global,
    core: &Core,
    target: &Target,
    rows: &[EditRow],
) -> Result<Cutting, EditFault>
    requires target { IsTarget core.now.library target.now }
    requires bounded { All IsBoundedRow rows.now }
    ensures cut { IfOk result (HasCut core.now.library target.now.flow rows.now) }
    ensures fault { IfErr result
        (λ fault. FirstRefused core.now.library target.now.flow rows.now fault
        ⊎ (fault ≡ EditFault.Memory)) }
{
    let mut cutting = Cutting {
        places: Listed::new(alloc),
        pieces: Pieces::new(alloc),
    };
    for row in rows {
        cut_row(alloc, core, target, row, &mut cutting)?;
    }
    Ok(cutting)
}

/// Cuts the pieces of one more row.
fn cut_row(
    alloc: Global,
    core: &Core,
    target: &Target,
    row: &EditRow,
    cutting: &mut Cutting,
) -> Result<(), EditFault>
    requires target { IsTarget core.now.library target.now }
    requires bounded { IsBoundedRow row.now }
    ensures cut { OnOk result
        (CutsRow core.now.library target.now.flow row.now cutting.old cutting.new) }
    ensures fault { IfErr result
        (RefusesRow core.now.library target.now.flow row.now cutting.old) }
{
    let number = number_behind(&cutting.places);
    let placed = place_row(alloc, core, target, cutting.places.items(), row, number)?;
    take_row(
        alloc,
        core,
        row.flow,
        &placed.clip,
        &mut cutting.pieces,
        number,
    )?;
    cutting.places.push(placed.place)?;
    Ok(())
}

/// The number of the record behind the head and the rows of these places.
fn number_behind(places: &Listed<TimeRange>) -> u64
    ensures { result ≡ length places.now + 2 }
{
    places.items().len() as u64 + 2
}

/// Takes the pieces of a row with this number.
fn take_row(
    alloc: Global,
    core: &Core,
    flow: u128,
    clip: &Clip,
    pieces: &mut Pieces,
    number: u64,
) -> Result<(), EditFault>
    requires kept { ¬ (IsUnkept core.now.library flow) }
    requires bounded { IsTrue (has_both_ends clip.now.range) }
    requires within { StaysWithin clip.now.range clip.now.shift }
    ensures taken { OnOk result
        (TakesRow core.now.library flow clip.now pieces.old pieces.new) }
    ensures fault { IfErr result
        (MayRefuseTaking core.now.library flow clip.now pieces.old number) }
{
    match take_all(alloc, core, flow, clip, pieces) {
        Ok(()) => far_fault(pieces, number),
        Err(PieceFault::NoRate) => Err(EditFault::NoRate(number)),
        Err(PieceFault::TooFar) => unreachable!(),
        Err(PieceFault::Memory) => Err(EditFault::Memory),
    }
}

/// The fault of a row with this number, where one of its pieces would go too far.
fn far_fault(pieces: &Pieces, number: u64) -> Result<(), EditFault>
    ensures near { OnOk result (pieces.now.far ≡ false) }
    ensures far { IfErr result
        (λ fault. (pieces.now.far ≡ true) × (fault ≡ EditFault.TooFar number)) }
{
    if pieces.far {
        Err(EditFault::TooFar(number))
    } else {
        Ok(())
    }
}
