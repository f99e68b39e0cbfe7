//! Bodies that ask for objects.
ghost use Rattle.std.specs.Prelude.{IfOk, IsTrue};
ghost use Rattle.serde_json.specs.View.{view};
ghost use Rattle.json_bodies.specs.Answers.{Answers};
ghost use Rattle.media_rows.specs.Sound.{is_want_good};
ghost use Rattle.json_bodies.specs.Storage.{count_in, want_of, want_in};

use crate::body::{check_object, read_body};
use crate::fault::BodyFault;
use crate::kinds::{CountedRule, ObjectIdKind};
use crate::members::optional;
use crate::rules::WholeRule;
use media_rows::Want;
use serde_json::Value;
use std::alloc::Global;

/// The most objects that are asked for at once.
const MOST_OBJECTS: u64 = 1_000;

/// So many are meant where no number is named.
const USUAL_OBJECTS: u64 = 100;

/// What a body asks for, which may be empty: 1 to 1,000 objects by `limit`, 100 where it is absent, or the
/// 1 to 1,000 objects of `object_ids`, and then `limit` isn't looked at. It is our own profile of the
/// Time-addressable Media Store.
pub fn read_storage(alloc: Global, body: &[u8]) -> Result<Want, BodyFault>
    ensures answer { Answers (want_in body.now) result }
    ensures ids { IfOk result (λ want. IsTrue (is_want_good want)) }
{
    if body.is_empty() {
        return Ok(Want::Count(USUAL_OBJECTS));
    }
    let value = read_body(alloc, body)?;
    check_object(alloc, &value)?;
    want_of(alloc, &value)
}

fn want_of(alloc: Global, object: &Value) -> Result<Want, BodyFault>
    ensures answer { Answers (want_of (view object.now)) result }
    ensures ids { IfOk result (λ want. IsTrue (is_want_good want)) }
{
    let rule = CountedRule {
        kind: ObjectIdKind,
        least: 1,
        most: MOST_OBJECTS as usize,
    };
    match optional(alloc, object, "object_ids", &rule)? {
        Some(ids) => Ok(Want::Named(ids)),
        None => count_in(alloc, object),
    }
}

fn count_in(alloc: Global, object: &Value) -> Result<Want, BodyFault>
    ensures answer { Answers (count_in (view object.now)) result }
    ensures ids { IfOk result (λ want. IsTrue (is_want_good want)) }
{
    let rule = WholeRule {
        least: 1,
        most: MOST_OBJECTS,
    };
    let limit = optional(alloc, object, "limit", &rule)?;
    Ok(Want::Count(limit.unwrap_or(USUAL_OBJECTS)))
}
