//! Pages of rows by their keys.
ghost use Rattle.std.specs.Prelude.{◌≡◌, ℤ, IfOk, option_map, option_copied, reverse, take, if◌then◌else◌};
ghost use Rattle.media_rows.specs.Lists.{is_past, items_past, last_key};
ghost use Rattle.media_rows.specs.Views.{flow_key, id_key, source_key};
ghost use Rattle.shared_tree.specs.Pairs.{values_of};
ghost use Rattle.core_views.specs.Pages.{key_before, key_behind};

use disk_trait::Memory;
use id_index::id_key;
use media_rows::{FlowRow, Page, SourceRow};
use std::alloc::Global;

/// A row that comes in pages by its key.
pub trait Keyed {
    ghost page_key: { Self → ℤ };

    fn key(&self) -> i128
        ensures { result ≡ page_key self.now };
}

impl Keyed for SourceRow {
    ghost page_key = { source_key };

    fn key(&self) -> i128 {
        id_key(self.id)
    }
}

impl Keyed for FlowRow {
    ghost page_key = { flow_key };

    fn key(&self) -> i128 {
        id_key(self.body.id)
    }
}

/// The rows that lie past a page's key, in its direction, of all rows by rising key.
pub fn rows_past<'a, T: Keyed>(
    alloc: Global,
    rows: &'a [T],
    page: &Page,
) -> Result<Vec<&'a T>, Memory>
    ensures { IfOk result (λ past. values_of past.items ≡ items_past T.page_key page.now rows.now) }
{
    let mut past = Vec::new(alloc);
    for row in rows {
        if is_past(page, row.key()) {
            past.push(row)?;
        }
    }
    if page.reverse {
        past.reverse();
    }
    Ok(past)
}

/// The id behind which the rows of a page lie, where it goes forward from a key. The others needn't be listed.
pub fn id_before(page: &Page) -> Option<u128>
    ensures { option_map id_key result ≡ key_before page.now }
{
    if page.reverse {
        return None;
    }
    page.after.map(id_of_key)
}

/// The id of a key.
fn id_of_key(key: i128) -> u128
    ensures { id_key result ≡ key }
{
    const HALF: u128 = 1 << 127;
    if key < 0 {
        (key + i128::MAX + 1) as u128
    } else {
        key as u128 + HALF
    }
}

/// Whether a key lies behind the one after which a page begins.
fn is_past(page: &Page, key: i128) -> bool
    ensures { result ≡ is_past page.now.after page.now.reverse key }
{
    match page.after {
        None => true,
        Some(after) => if page.reverse {
            key < after
        } else {
            after < key
        },
    }
}

/// The first so many rows.
pub fn first_rows<'a, 'b, T>(rows: &'b [&'a T], limit: u64) -> &'b [&'a T]
    ensures { values_of result.now ≡ take limit (values_of rows.now) }
{
    if limit < rows.len() as u64 {
        &rows[..limit as usize]
    } else {
        rows
    }
}

/// The key of the last of the first so many rows, where there are more: behind it the next page begins.
pub fn key_behind<T: Keyed>(rows: &[&T], limit: u64) -> Option<i128>
    ensures { result ≡ key_behind T.page_key limit (values_of rows.now) }
{
    if rows.len() as u64 <= limit {
        return None;
    }
    last_key(first_rows(rows, limit))
}

/// The key of the last row, where there is one.
fn last_key<T: Keyed>(rows: &[&T]) -> Option<i128>
    ensures { result ≡ last_key T.page_key (values_of rows.now) }
{
    match rows.last() {
        Some(last) => Some(last.key()),
        None => None,
    }
}
