//! Delete requests at the keys of their serials, and the flows that they delete.
ghost use Rattle.std.specs.Prelude.{◌≡◌, ◌<◌, ◌-◌, ◌^◌, IfOk, filter, negsuc, option_copied, option_map};
ghost use Rattle.media_rows.specs.Requests.{is_done};
ghost use Rattle.media_rows.specs.Views.{id_key};
ghost use Rattle.shared_tree.specs.Pairs.{first, is_above, values, values_of, with_pair, without_key};
ghost use Rattle.delete_work.specs.Within.Keeping.{IsEnding, entered_if, is_ending, request_key};

use disk_trait::Memory;
use id_index::{IdIndex, all_rows, row_at, with_row, without_row};
use media_rows::{DeleteList, DeleteRow, DeleteStatus};
use shared_tree::{Steps, Version};
use std::alloc::Global;
use std::marker::Brand;
use std::sync::ledger::{Blank, Ledger};

/// A serial as an id.
pub(crate) fn as_id(serial: u64) -> u128
    ensures { result ≡ serial }
{
    u128::from(serial)
}

/// The serial of a request as an id.
pub(crate) fn serial_id(row: &DeleteRow) -> u128
    ensures { result ≡ row.now.serial }
{
    as_id(row.serial)
}

/// Whether a request is worked off, or its flow is gone.
pub(crate) fn is_done(row: &DeleteRow) -> bool
    ensures { result ≡ is_done row.now.status }
{
    match row.status {
        DeleteStatus::Created | DeleteStatus::Started => false,
        DeleteStatus::Done => true,
    }
}

/// Whether a request is unfinished and deletes its flow.
fn is_ending(row: &DeleteRow) -> bool
    ensures { result ≡ is_ending row.now }
{
    !is_done(row) && row.delete_flow
}

/// Requests with this one at its serial.
pub(crate) fn entered(
    alloc: Global,
    rows: &Version<DeleteRow>,
    row: &DeleteRow,
) -> Result<Version<DeleteRow>, Memory>
    ensures { IfOk result (λ next. next ≡ with_pair (request_key row.now, row.now) rows.now) }
{
    with_row(alloc, rows, serial_id(row), *row)
}

/// Requests without the one of this one's serial.
pub(crate) fn left_out(
    alloc: Global,
    rows: &Version<DeleteRow>,
    row: &DeleteRow,
) -> Result<Version<DeleteRow>, Memory>
    ensures { IfOk result (λ next. next ≡ without_key (request_key row.now) rows.now) }
{
    without_row(alloc, rows, serial_id(row))
}

/// Requests with this one where it belongs there, and without it where it doesn't.
pub(crate) fn entered_if(
    alloc: Global,
    rows: &Version<DeleteRow>,
    row: &DeleteRow,
    belongs: bool,
) -> Result<Version<DeleteRow>, Memory>
    ensures { IfOk result (λ next. next ≡ entered_if belongs row.now rows.now) }
{
    if belongs {
        entered(alloc, rows, row)
    } else {
        left_out(alloc, rows, row)
    }
}

/// The flows that requests delete, with this one at its serial.
pub(crate) fn ending_with(
    alloc: Global,
    rows: &Version<DeleteRow>,
    ending: &IdIndex,
    row: &DeleteRow,
) -> Result<IdIndex, Memory>
    requires index { IsEnding rows.now ending.now }
    ensures { IfOk result (IsEnding (with_pair (request_key row.now, row.now) rows.now)) }
{
    let serial = serial_id(row);
    let left = ending_without(alloc, rows, ending, row)?;
    if is_ending(row) {
        left.link(alloc, &[row.flow], serial)
    } else {
        Ok(left)
    }
}

/// The flows that requests delete, without the one of this one's serial.
pub(crate) fn ending_without(
    alloc: Global,
    rows: &Version<DeleteRow>,
    ending: &IdIndex,
    row: &DeleteRow,
) -> Result<IdIndex, Memory>
    requires index { IsEnding rows.now ending.now }
    ensures { IfOk result (IsEnding (without_key (request_key row.now) rows.now)) }
{
    rows.keys_rise();
    let serial = serial_id(row);
    let Some(old) = row_at(rows, serial) else {
        return ending.share();
    };
    if is_ending(old) {
        ending.unlink(alloc, &[old.flow], serial)
    } else {
        ending.share()
    }
}

/// The request of least serial.
pub(crate) fn first_request(rows: &Version<DeleteRow>) -> Option<&DeleteRow>
    ensures { option_copied result ≡ first (values rows.now) }
{
    rows.keys_rise();
    rows.keys_fit();
    match row_at(rows, 0) {
        Some(row) => Some(row),
        None => first_behind::<Brand>(rows, Blank::new(1)),
    }
}

/// The first request behind serial 0. The steps aren't anybody's.
fn first_behind<L: Ledger>(rows: &Version<DeleteRow>, blank: Blank) -> Option<&DeleteRow>
    requires name { blank.name ≡ L.name }
    requires parts { blank.parts ≡ L.parts }
    requires one { 0 < L.parts }
    ensures { option_copied result
        ≡ option_map (λ p. p.1) (first (filter (is_above (negsuc (2 ^ 127 - 1))) rows.now)) }
{
    let mut steps = Steps::<L>::new(blank);
    match rows.after(i128::MIN, &mut steps) {
        Some((_, row)) => Some(row),
        None => None,
    }
}

/// Copies of requests by rising serial.
pub(crate) fn request_list(alloc: Global, rows: &Version<DeleteRow>) -> Result<DeleteList, Memory>
    ensures { IfOk result (λ list. list ≡ values rows.now) }
{
    requests_copied(alloc, &all_rows(alloc, rows)?)
}

fn requests_copied(alloc: Global, rows: &[&DeleteRow]) -> Result<DeleteList, Memory>
    ensures { IfOk result (λ list. list ≡ values_of rows.now) }
{
    let mut list = DeleteList::new(alloc);
    for row in rows {
        list.push(**row)?;
    }
    Ok(list)
}
