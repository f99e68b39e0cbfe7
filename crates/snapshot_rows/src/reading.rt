//! The rows that a text spells.
ghost use Rattle.std.specs.Prelude.{◌≡◌, ◌≤◌, ◌<◌, ◌+◌, ℕ, List, length, drop, true, Some, None, IfOk, IfSome};
ghost use Rattle.disk_trait.specs.Forms.{IsForm};
ghost use Rattle.media_rows.specs.declared.row.Row.{Row};
ghost use Rattle.change_codec.specs.Codec.{BeginsWithRow};
ghost use Rattle.snapshot_rows.specs.Texts.{IsDamagedAt, OnDamaged, SpellsRows};
ghost use Rattle.snapshot_rows.specs.Within.Places.{IsPlaceOf, stands_behind};
ghost use Rattle.snapshot_rows.specs.Within.Fronts.{NoneFollows};

use crate::RowsFault;
use crate::places::{Place, place_of};
use change_codec::{CodecFault, decode_row};
use disk_trait::Memory;
use media_rows::{Row, RowList};
use std::alloc::Global;

/// A row that stands at the front of bytes, and how many of them it takes.
#[derive(Drop)]
struct Found {
    row: Row,
    taken: usize,
    place: Place,
}

/// The rows that a text spells in a form one after another, in the order of a snapshot. `Damaged` names the
/// offset of the first row that is no spelling, or that doesn't stand behind the row before it.
pub fn read_rows(alloc: Global, bytes: &[u8], form: u8) -> Result<RowList, RowsFault>
    requires form { IsForm form }
    ensures ok { IfOk result (SpellsRows form bytes.now) }
    ensures damaged { OnDamaged result (IsDamagedAt form bytes.now) }
{
    let mut rows = RowList::new(alloc);
    let mut last = None;
    let mut at = 0;
    'rows: while at < bytes.len() {
        match next_row(alloc, &bytes[at..], form, &last)? {
            Some(found) => {
                at += found.taken;
                last = Some(found.place);
                rows.push(found.row)?;
            }
            None => return Err(RowsFault::Damaged(at as u64)),
        }
    }
    Ok(rows)
}

/// The row at the front of these bytes, where one stands there that may follow the last row.
fn next_row(
    alloc: Global,
    bytes: &[u8],
    form: u8,
    last: &Option<Place>,
) -> Result<Option<Found>, Memory>
    requires form { IsForm form }
    ensures begins { IfOk result (λ next. IfSome next
        (λ found. BeginsWithRow form bytes.now found.row found.taken)) }
    ensures place { IfOk result (λ next. IfSome next (λ found. IsPlaceOf found.place found.row)) }
    ensures behind { IfOk result (λ next. IfSome next
        (λ found. stands_behind last.now found.row ≡ true)) }
    ensures none { IfOk result (λ next. next ≡ None → NoneFollows form last.now bytes.now) }
{
    let (row, taken) = match decode_row(alloc, bytes, form) {
        Ok(found) => found,
        Err(CodecFault::Bad(_)) => return Ok(None),
        Err(CodecFault::Memory) => return Err(Memory),
    };
    let place = place_of(&row);
    if !follows(last, &place) {
        return Ok(None);
    }
    Ok(Some(Found {
        row,
        taken: taken as usize,
        place,
    }))
}

/// Whether a place stands behind the last one, where there is one.
fn follows(last: &Option<Place>, place: &Place) -> bool
    ensures { (row : Row) → IsPlaceOf place.now row → result ≡ stands_behind last.now row }
{
    match last {
        Some(last) => last.is_before(place),
        None => true,
    }
}
