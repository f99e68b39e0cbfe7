//! Numbers of 128 bits as keys of versions, and looks by them.
ghost use Rattle.std.specs.Prelude.{◌≡◌, ◌<◌, ◌-◌, ◌^◌, ◌≤ℤ◌, IfOk, filter, negsuc, option_copied, option_map};
ghost use Rattle.std.specs.List.{AllByRecursion};
ghost use Rattle.media_rows.specs.Views.{id_key};
ghost use Rattle.shared_tree.specs.Pairs.{first, is_above, value_at, values, values_of, with_pair, without_key};

use disk_trait::Memory;
use shared_tree::{Steps, Version};
use std::alloc::Global;
use std::marker::Brand;
use std::rc::Rc;
use std::sync::ledger::{Blank, Ledger};

/// The key of a number: the number less 2^127.
pub(crate) fn number_key(number: u128) -> i128
    ensures { result ≡ id_key number }
{
    const HALF: u128 = 1 << 127;
    if number < HALF {
        number as i128 - i128::MAX - 1
    } else {
        (number - HALF) as i128
    }
}

/// The value at a key. The steps aren't anybody's.
fn looked_up<'a, V: Drop, L: Ledger>(
    values: &'a Version<V>,
    key: &i128,
    blank: Blank,
) -> Option<&'a V>
    requires name { blank.name ≡ L.name }
    requires parts { blank.parts ≡ L.parts }
    requires one { 0 < L.parts }
    ensures { option_copied result ≡ value_at key.now values.now }
{
    let mut steps = Steps::<L>::new(blank);
    values.get(*key, &mut steps)
}

/// The value at a key.
pub(crate) fn value_at<'a, V: Drop>(values: &'a Version<V>, key: &i128) -> Option<&'a V>
    ensures { option_copied result ≡ value_at key.now values.now }
{
    looked_up::<V, Brand>(values, key, Blank::new(1))
}

/// The values with one at a key.
pub(crate) fn with_value<V: Drop>(
    alloc: Global,
    values: &Version<V>,
    key: &i128,
    value: V,
) -> Result<Version<V>, Memory>
    ensures { IfOk result (λ next. next ≡ with_pair (key.now, value) values.now) }
{
    values.with(alloc, *key, Rc::new(alloc, value)?)
}

/// The values without the one at a key.
pub(crate) fn without_value<V: Drop>(
    alloc: Global,
    values: &Version<V>,
    key: &i128,
) -> Result<Version<V>, Memory>
    ensures { IfOk result (λ next. next ≡ without_key key.now values.now) }
{
    values.without(alloc, *key)
}

/// All values by rising key.
pub(crate) fn all_values<V: Drop>(alloc: Global, rows: &Version<V>) -> Result<Vec<&V>, Memory>
    requires least { AllByRecursion (λ p. negsuc (2 ^ 127 - 1) ≤ℤ p.0) rows.now }
    ensures { IfOk result (λ list. values_of list.items ≡ values rows.now) }
{
    all_looked_up::<V, Brand>(alloc, rows, Blank::new(1))
}

/// All values by rising key. The steps aren't anybody's.
fn all_looked_up<V: Drop, L: Ledger>(
    alloc: Global,
    rows: &Version<V>,
    blank: Blank,
) -> Result<Vec<&V>, Memory>
    requires least { AllByRecursion (λ p. negsuc (2 ^ 127 - 1) ≤ℤ p.0) rows.now }
    requires name { blank.name ≡ L.name }
    requires parts { blank.parts ≡ L.parts }
    requires one { 0 < L.parts }
    ensures { IfOk result (λ list. values_of list.items ≡ values rows.now) }
{
    let count = rows.len();
    if count == u64::MAX {
        return Err(Memory);
    }
    let mut steps = Steps::<L>::new(blank);
    let mut list = Vec::with_capacity(alloc, count as usize)?;
    rows.walk_from(i128::MIN, count as usize, &mut list, &mut steps);
    Ok(list)
}

/// The value at the least key.
pub(crate) fn first_value<V: Drop>(rows: &Version<V>) -> Option<&V>
    requires least { AllByRecursion (λ p. negsuc (2 ^ 127 - 1) ≤ℤ p.0) rows.now }
    ensures { option_copied result ≡ first (values rows.now) }
{
    rows.keys_rise();
    match value_at(rows, &i128::MIN) {
        Some(value) => Some(value),
        None => first_looked_up::<V, Brand>(rows, Blank::new(1)),
    }
}

/// The value at the first key above the least number. The steps aren't anybody's.
fn first_looked_up<V: Drop, L: Ledger>(rows: &Version<V>, blank: Blank) -> Option<&V>
    requires name { blank.name ≡ L.name }
    requires parts { blank.parts ≡ L.parts }
    requires one { 0 < L.parts }
    ensures { option_copied result
        ≡ option_map (λ p. p.1) (first (filter (is_above (negsuc (2 ^ 127 - 1))) rows.now)) }
{
    let mut steps = Steps::<L>::new(blank);
    match rows.after(i128::MIN, &mut steps) {
        Some((_, value)) => Some(value),
        None => None,
    }
}
