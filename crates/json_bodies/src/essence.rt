//! Essence parameters, kept whole as compact text.
ghost use Rattle.std.specs.Prelude.{◌≡◌, IfOk, IsTrue, codes, true};
ghost use Rattle.serde_json.specs.View.{view};
ghost use Rattle.serde_json.specs.Written.{compact_text};
ghost use Rattle.media_rows.specs.Essence.{is_essence, is_object};
ghost use Rattle.media_rows.specs.Good.{if_there};
ghost use Rattle.json_bodies.specs.Answers.{Answers};
ghost use Rattle.json_bodies.specs.Flow.{essence};
ghost use Rattle.json_bodies.specs.Plain.{IsPlain};
ghost use Rattle.json_bodies.specs.Rules.{optional_member, named_result};

use crate::fault::{BodyFault, Breach};
use disk_trait::{Memory, Text};
use serde_json::Value;
use std::alloc::Global;

/// The name of the member.
const ESSENCE: &str = "essence_parameters";

/// The essence text of a flow, which may be absent.
pub(crate) fn read_essence(alloc: Global, object: &Value) -> Result<Option<Text>, BodyFault>
    requires { IsPlain (view object.now) }
    ensures answer { Answers (optional_member (codes "essence_parameters") essence (view object.now)) result }
    ensures good { IfOk result (λ found. IsTrue (if_there is_essence found)) }
{
    match object.get(ESSENCE) {
        Some(value) if value.is_object() => Ok(Some(essence_text(alloc, value)?)),
        Some(_) => Err(BodyFault::Refused(Breach::WrongKind.refusal(alloc, ESSENCE)?)),
        None => Ok(None),
    }
}

/// The compact text of an object.
#[tactic(auto, using(crate::proofs::Essences::essence_of))]
fn essence_text(alloc: Global, value: &Value) -> Result<Text, Memory>
    requires plain { IsPlain (view value.now) }
    requires is_object { is_object (view value.now) ≡ true }
    ensures text { IfOk result (λ text. text ≡ compact_text (view value.now)) }
    ensures good { IfOk result (λ text. is_essence text ≡ true) }
{
    Ok(Text::from_vec(value.to_vec(alloc)?))
}
