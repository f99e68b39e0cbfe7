//! The value of a body.
ghost use Rattle.std.specs.Prelude.{◌≡◌, ◌≤◌, IfOk, IfSome, Err, codes, option_map};
ghost use Rattle.serde_json.specs.Data.{depth};
ghost use Rattle.serde_json.specs.Read.{max_depth};
ghost use Rattle.serde_json.specs.View.{view};
ghost use Rattle.json_bodies.specs.Answers.{Answers, AnswersValue};
ghost use Rattle.json_bodies.specs.Body.{json_in, value_in, checked_object};
ghost use Rattle.json_bodies.specs.Rules.{breach_of};
ghost use Rattle.json_bodies.specs.Plain.{IsPlain};

use crate::fault::{BodyFault, Breach};
use disk_trait::Memory;
use media_rows::{Refusal, holds_float};
use serde_json::Value;
use std::alloc::Global;

/// The name of the body in a refusal.
pub(crate) const BODY: &str = "body";

/// The JSON value that bytes spell.
fn read_json(alloc: Global, bytes: &[u8]) -> Result<Option<Value>, Memory>
    ensures value { IfOk result (λ found. option_map view found ≡ json_in bytes.now) }
    ensures nests { IfOk result (λ found. IfSome found (λ value. depth (view value) ≤ max_depth)) }
{
    match Value::from_slice(alloc, bytes) {
        Ok(value) => Ok(Some(value)),
        Err(error) => {
            if error.is_memory() {
                Err(Memory)
            } else {
                Ok(None)
            }
        }
    }
}

/// The value that a body spells.
pub(crate) fn read_body(alloc: Global, body: &[u8]) -> Result<Value, BodyFault>
    ensures answer { AnswersValue (value_in body.now) result }
    ensures plain { IfOk result (λ value. IsPlain (view value)) }
{
    let Some(value) = read_json(alloc, body)? else {
        return Err(BodyFault::Refused(Refusal::NotJson));
    };
    if holds_float(&value) {
        return Err(BodyFault::Refused(Refusal::Fractional));
    }
    Ok(value)
}

/// The refusal of a breach that names the body.
pub(crate) fn body_refusal<T: Drop>(alloc: Global, breach: Breach) -> Result<T, BodyFault>
    ensures { Answers (Err (breach_of (codes "body") breach)) result }
{
    Err(BodyFault::Refused(breach.refusal(alloc, BODY)?))
}

/// Goes on where a value is an object.
pub(crate) fn check_object(alloc: Global, value: &Value) -> Result<(), BodyFault>
    ensures { Answers (checked_object (view value.now)) result }
{
    if value.is_object() {
        Ok(())
    } else {
        body_refusal(alloc, Breach::WrongKind)
    }
}
