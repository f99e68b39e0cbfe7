//! Essence texts: a flow's essence parameters, kept whole.
ghost use Rattle.std.specs.Prelude.{◌≡◌, IfOk};
ghost use Rattle.serde_json.specs.View.{items_view, members_view, view};
ghost use Rattle.serde_json.specs.Written.{has_float, items_have_float, members_have_float};
ghost use Rattle.media_rows.specs.Essence.{is_essence, is_essence_value};

use disk_trait::{Memory, same_bytes};
use serde_json::{Map, Value};
use std::alloc::Global;

/// Whether a text is the compact text of a JSON object (RFC 8259) whose numbers are whole numbers of
/// 64 bits, with the keys of each object in byte order. It is our own rule.
pub fn is_essence(alloc: Global, text: &[u8]) -> Result<bool, Memory>
    ensures { IfOk result (λ yes. yes ≡ is_essence text.now) }
{
    match Value::from_slice(alloc, text) {
        Ok(value) => prints_back(alloc, &value, text),
        Err(error) => {
            if error.is_memory() {
                Err(Memory)
            } else {
                Ok(false)
            }
        }
    }
}

/// Whether a value is an object without a fraction that prints as this text.
fn prints_back(alloc: Global, value: &Value, text: &[u8]) -> Result<bool, Memory>
    ensures { IfOk result (λ yes. yes ≡ is_essence_value text.now (view value.now)) }
{
    if value.as_object().is_none() || holds_float(value) {
        return Ok(false);
    }
    let printed = value.to_string(alloc)?;
    Ok(same_bytes(printed.as_bytes(), text))
}

/// Whether a number within a value is not held as a whole number of 64 bits.
#[cycle(holds_float)]
pub fn holds_float(value: &Value) -> bool
    ensures { result ≡ has_float (view value.now) }
{
    match value {
        Value::Number(number) => number.is_f64(),
        Value::Array(items) => any_float(items),
        Value::Object(members) => any_member_float(members),
        _ => false,
    }
}

#[cycle(holds_float)]
fn any_float(items: &[Value]) -> bool
    ensures { result ≡ items_have_float (items_view items.now) }
{
    for item in items {
        if holds_float(item) {
            return true;
        }
    }
    false
}

#[cycle(holds_float)]
fn any_member_float(members: &Map<String, Value>) -> bool
    ensures { result ≡ members_have_float (members_view members.now.entries) }
{
    for (_, member) in members.iter() {
        if holds_float(member) {
            return true;
        }
    }
    false
}
