//! Looks at versions by serials. Steps aren't anybody's.
ghost use Rattle.std.specs.Prelude.{◌≡◌, ◌<◌, IfOk, filter, option_copied, option_map, pos};
ghost use Rattle.shared_tree.specs.Pairs.{first, is_above, value_at, values, values_of};
ghost use Rattle.shared_tree.specs.Rows.{IsKeyedBy};
ghost use Rattle.media_rows.specs.Outbox.{has_url, hook_of};
ghost use Rattle.webhook_outbox.specs.Within.Slots.{HasSerials, event_key, hook_rows, slot_key};

use crate::changes::key_of;
use crate::outbox::Slot;
use disk_trait::{Memory, Text};
use media_rows::{EventRow, HookRow};
use shared_tree::{Steps, Version};
use std::alloc::Global;
use std::marker::Brand;
use std::sync::ledger::{Blank, Ledger};

/// The value of a serial.
pub(crate) fn value_at<V: Drop>(rows: &Version<V>, serial: u64) -> Option<&V>
    ensures { option_copied result ≡ value_at (pos serial) rows.now }
{
    looked_up::<V, Brand>(rows, serial, Blank::new(1))
}

fn looked_up<V: Drop, L: Ledger>(rows: &Version<V>, serial: u64, blank: Blank) -> Option<&V>
    requires name { blank.name ≡ L.name }
    requires parts { blank.parts ≡ L.parts }
    requires one { 0 < L.parts }
    ensures { option_copied result ≡ value_at (pos serial) rows.now }
{
    let mut steps = Steps::<L>::new(blank);
    rows.get(key_of(serial), &mut steps)
}

/// The value of the least serial above this one.
pub(crate) fn value_above<V: Drop>(rows: &Version<V>, serial: u64) -> Option<&V>
    ensures { option_copied result
        ≡ option_map (λ p. p.1) (first (filter (is_above (pos serial)) rows.now)) }
{
    above_looked_up::<V, Brand>(rows, serial, Blank::new(1))
}

fn above_looked_up<V: Drop, L: Ledger>(rows: &Version<V>, serial: u64, blank: Blank) -> Option<&V>
    requires name { blank.name ≡ L.name }
    requires parts { blank.parts ≡ L.parts }
    requires one { 0 < L.parts }
    ensures { option_copied result
        ≡ option_map (λ p. p.1) (first (filter (is_above (pos serial)) rows.now)) }
{
    let mut steps = Steps::<L>::new(blank);
    match rows.after(key_of(serial), &mut steps) {
        Some((_, value)) => Some(value),
        None => None,
    }
}

/// The first of these events.
pub(crate) fn first_waiting(events: &Version<EventRow>) -> Option<&EventRow>
    requires keyed { IsKeyedBy event_key events.now }
    ensures { option_copied result ≡ first (values events.now) }
{
    first_looked_up::<Brand>(events, Blank::new(1))
}

fn first_looked_up<L: Ledger>(events: &Version<EventRow>, blank: Blank) -> Option<&EventRow>
    requires keyed { IsKeyedBy event_key events.now }
    requires name { blank.name ≡ L.name }
    requires parts { blank.parts ≡ L.parts }
    requires one { 0 < L.parts }
    ensures { option_copied result ≡ first (values events.now) }
{
    let mut steps = Steps::<L>::new(blank);
    match events.after(-1, &mut steps) {
        Some((_, row)) => Some(row),
        None => None,
    }
}

/// All values by rising key, where each key is that of a serial.
pub(crate) fn all_values<V: Drop>(alloc: Global, rows: &Version<V>) -> Result<Vec<&V>, Memory>
    requires serials { HasSerials rows.now }
    ensures { IfOk result (λ list. values_of list.items ≡ values rows.now) }
{
    all_looked_up::<V, Brand>(alloc, rows, Blank::new(1))
}

fn all_looked_up<V: Drop, L: Ledger>(
    alloc: Global,
    rows: &Version<V>,
    blank: Blank,
) -> Result<Vec<&V>, Memory>
    requires serials { HasSerials rows.now }
    requires name { blank.name ≡ L.name }
    requires parts { blank.parts ≡ L.parts }
    requires one { 0 < L.parts }
    ensures { IfOk result (λ list. values_of list.items ≡ values rows.now) }
{
    let count = rows.len();
    if count == u64::MAX {
        return Err(Memory);
    }
    let mut steps = Steps::<L>::new(blank);
    let mut list = Vec::with_capacity(alloc, count as usize)?;
    rows.walk_from(0, count as usize, &mut list, &mut steps);
    Ok(list)
}

/// All hooks by rising serial.
pub(crate) fn all_slots(alloc: Global, slots: &Version<Slot>) -> Result<Vec<&Slot>, Memory>
    requires keyed { IsKeyedBy slot_key slots.now }
    ensures { IfOk result (λ list. values_of list.items ≡ values slots.now) }
{
    all_values(alloc, slots)
}

/// Whether a hook has an address.
pub(crate) fn has_url(slot: &Slot, url: &Text) -> bool
    ensures { result ≡ has_url url.now slot.now.row.value }
{
    let row: &HookRow = &slot.row;
    row.hook.url.bytes() == url.bytes()
}

/// The first of these hooks that has an address.
pub(crate) fn hook_of<'a>(slots: &[&'a Slot], url: &Text) -> Option<&'a HookRow>
    ensures { option_copied result ≡ hook_of url.now (hook_rows (values_of slots.now)) }
{
    for slot in slots {
        if has_url(slot, url) {
            return Some(&slot.row);
        }
    }
    None
}
