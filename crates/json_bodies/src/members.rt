//! Members of an object: each is read by a rule, and a breach is the refusal with the member's name.
ghost use Rattle.std.specs.Prelude.{◌≡◌, IfOk, IsTrue};
ghost use Rattle.serde_json.specs.View.{view};
ghost use Rattle.media_rows.specs.Good as good;
ghost use Rattle.json_bodies.specs.Answers.{Answers, IsFaultOf};
ghost use Rattle.json_bodies.specs.Rules.{named_result, optional_member, required};

use crate::fault::{BodyFault, Breach, RuleFault};
use crate::rules::Rule;
use serde_json::Value;
use std::alloc::Global;

/// The answer for what a rule doesn't give of the member of this name.
pub(crate) fn faulty<T: Drop>(alloc: Global, name: &str, fault: RuleFault) -> Result<T, BodyFault>
    ensures answer { IsFaultOf name.now fault result }
{
    match fault {
        RuleFault::Breach(breach) => Err(BodyFault::Refused(breach.refusal(alloc, name)?)),
        RuleFault::Memory => Err(BodyFault::Memory),
    }
}

/// A member that may be absent.
pub(crate) fn optional<T: Drop, R: Rule<T>>(
    alloc: Global,
    object: &Value,
    name: &str,
    rule: &R,
) -> Result<Option<T>, BodyFault>
    ensures answer { Answers (optional_member name.now (R.gives rule.now) (view object.now)) result }
    ensures good { IfOk result (λ found. IsTrue (good.if_there (R.is_good rule.now) found)) }
{
    let Some(value) = object.get(name) else {
        return Ok(None);
    };
    match rule.read(alloc, value) {
        Ok(found) => Ok(Some(found)),
        Err(fault) => faulty(alloc, name, fault),
    }
}

/// A member that has to be there.
pub(crate) fn required<T: Drop, R: Rule<T>>(
    alloc: Global,
    object: &Value,
    name: &str,
    rule: &R,
) -> Result<T, BodyFault>
    ensures answer { Answers (required name.now (R.gives rule.now) (view object.now)) result }
    ensures good { IfOk result (λ found. IsTrue (R.is_good rule.now found)) }
{
    let Some(value) = object.get(name) else {
        return Err(BodyFault::Refused(Breach::Missing.refusal(alloc, name)?));
    };
    match rule.read(alloc, value) {
        Ok(found) => Ok(found),
        Err(fault) => faulty(alloc, name, fault),
    }
}

/// A value by itself, whose faults have this name.
pub(crate) fn valued<T: Drop, R: Rule<T>>(
    alloc: Global,
    value: &Value,
    name: &str,
    rule: &R,
) -> Result<T, BodyFault>
    ensures answer { Answers (named_result name.now (R.gives rule.now (view value.now))) result }
    ensures good { IfOk result (λ found. IsTrue (R.is_good rule.now found)) }
{
    match rule.read(alloc, value) {
        Ok(found) => Ok(found),
        Err(fault) => faulty(alloc, name, fault),
    }
}
