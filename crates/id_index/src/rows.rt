//! Rows that stand at the keys of their ids: one of them, all of them, and those behind an id.
ghost use Rattle.std.specs.Prelude.{◌≡◌, ◌<◌, ◌-◌, ◌^◌, IfOk, filter, option_copied};
ghost use Rattle.media_rows.specs.Views.{id_key};
ghost use Rattle.shared_tree.specs.Pairs.{is_above, is_from, value_at, values, values_of, with_pair, without_key};

use disk_trait::Memory;
use shared_tree::{Steps, Version};
use std::alloc::Global;
use std::marker::Brand;
use std::rc::Rc;
use std::sync::ledger::{Blank, Ledger};

/// The key of an id: the id less 2^127.
pub fn id_key(id: u128) -> i128
    ensures { result ≡ id_key id }
{
    const HALF: u128 = 1 << 127;
    if id < HALF {
        id as i128 - i128::MAX - 1
    } else {
        (id - HALF) as i128
    }
}

/// The row at the key of an id, if there is one.
pub fn row_at<V: Drop>(rows: &Version<V>, id: u128) -> Option<&V>
    ensures { option_copied result ≡ value_at (id_key id) rows.now }
{
    value_at::<V, Brand>(rows, id_key(id), Blank::new(1))
}

/// The value at a key. The steps aren't anybody's.
fn value_at<V: Drop, L: Ledger>(rows: &Version<V>, key: i128, blank: Blank) -> Option<&V>
    requires name { blank.name ≡ L.name }
    requires parts { blank.parts ≡ L.parts }
    requires one { 0 < L.parts }
    ensures { option_copied result ≡ value_at key rows.now }
{
    let mut steps = Steps::<L>::new(blank);
    rows.get(key, &mut steps)
}

/// The rows with one at the key of an id, instead of the one that stood there.
pub fn with_row<V: Drop>(
    alloc: Global,
    rows: &Version<V>,
    id: u128,
    row: V,
) -> Result<Version<V>, Memory>
    ensures { IfOk result (λ next. next ≡ with_pair (id_key id, row) rows.now) }
{
    rows.with(alloc, id_key(id), Rc::new(alloc, row)?)
}

/// The rows without the one at the key of an id, if there is one.
pub fn without_row<V: Drop>(
    alloc: Global,
    rows: &Version<V>,
    id: u128,
) -> Result<Version<V>, Memory>
    ensures { IfOk result (λ next. next ≡ without_key (id_key id) rows.now) }
{
    rows.without(alloc, id_key(id))
}

/// All rows by rising key.
pub fn all_rows<V: Drop>(alloc: Global, rows: &Version<V>) -> Result<Vec<&V>, Memory>
    ensures { IfOk result (λ list. values_of list.items ≡ values rows.now) }
{
    rows.keys_fit();
    rows_from::<V, Brand>(alloc, rows, i128::MIN, Blank::new(1))
}

/// The rows behind the key of an id, by rising key.
pub fn rows_behind<V: Drop>(alloc: Global, rows: &Version<V>, id: u128) -> Result<Vec<&V>, Memory>
    ensures { IfOk result
        (λ list. values_of list.items ≡ values (filter (is_above (id_key id)) rows.now)) }
{
    rows.keys_fit();
    if id == u128::MAX {
        return Ok(Vec::new(alloc));
    }
    rows_from::<V, Brand>(alloc, rows, id_key(id + 1), Blank::new(1))
}

/// The rows from a key on, by rising key. The steps aren't anybody's.
fn rows_from<V: Drop, L: Ledger>(
    alloc: Global,
    rows: &Version<V>,
    key: i128,
    blank: Blank,
) -> Result<Vec<&V>, Memory>
    requires name { blank.name ≡ L.name }
    requires parts { blank.parts ≡ L.parts }
    requires one { 0 < L.parts }
    ensures { IfOk result
        (λ list. values_of list.items ≡ values (filter (is_from key) rows.now)) }
{
    let count = rows.len();
    if count == u64::MAX {
        return Err(Memory);
    }
    let mut steps = Steps::<L>::new(blank);
    let mut list = Vec::with_capacity(alloc, count as usize)?;
    rows.walk_from(key, count as usize, &mut list, &mut steps);
    Ok(list)
}
