//! Bodies of single parts.
ghost use Rattle.std.specs.Prelude.{◌≡◌, IfOk, IsFalse, IsTrue, true};
ghost use Rattle.std.specs.Str.{is_utf8};
ghost use Rattle.serde_json.specs.View.{view};
ghost use Rattle.media_rows.specs.declared.part.PartName.TheVariants as names;
ghost use Rattle.json_bodies.specs.Answers.{Answers};
ghost use Rattle.json_bodies.specs.Part.{rate, part_from, part_in, is_all_tags, is_name_text, is_part_text};

use crate::body::read_body;
use crate::fault::BodyFault;
use crate::members::valued;
use crate::rules::{LAST_WHOLE, LONGEST_DESCRIPTION, LONGEST_TEXT, TextRule, TruthRule, WholeRule};
use crate::tags::{CollectionRule, TagRule};
use disk_trait::Text;
use media_rows::{Part, PartName};
use serde_json::Value;
use std::alloc::Global;

/// The part of this name that a body sets: a text, a tag's text or list of texts, a truth value, a list of
/// collected flows, or a bit rate in bits per second. A refusal names the part, for a tag `tags`. It is
/// our own profile of the Time-addressable Media Store.
pub fn read_part(alloc: Global, body: &[u8], name: PartName) -> Result<Part, BodyFault>
    requires { IsFalse (is_all_tags name) }
    ensures answer { Answers (part_in name body.now) result }
    ensures texts { IsTrue (is_name_text name) → IfOk result (λ part. IsTrue (is_part_text part)) }
{
    let value = read_body(alloc, body)?;
    part_of(alloc, &value, name)
}

fn part_of(alloc: Global, value: &Value, name: PartName) -> Result<Part, BodyFault>
    requires { IsFalse (is_all_tags name) }
    ensures answer { Answers (part_from name (view value.now)) result }
    ensures texts { IsTrue (is_name_text name) → IfOk result (λ part. IsTrue (is_part_text part)) }
{
    match name {
        PartName::Tag(name) => tag_part(alloc, value, name),
        PartName::Tags => unreachable!(),
        PartName::Label => {
            let rule = TextRule { most: LONGEST_TEXT };
            Ok(Part::Label(Some(valued(alloc, value, "label", &rule)?)))
        }
        PartName::Description => {
            let rule = TextRule {
                most: LONGEST_DESCRIPTION,
            };
            Ok(Part::Description(Some(valued(alloc, value, "description", &rule)?)))
        }
        PartName::ReadOnly => Ok(Part::ReadOnly(valued(alloc, value, "read_only", &TruthRule)?)),
        PartName::Collection => Ok(Part::Collection(valued(
            alloc,
            value,
            "flow_collection",
            &CollectionRule,
        )?)),
        PartName::MaxBitRate => Ok(Part::MaxBitRate(Some(rate(alloc, value, "max_bit_rate")?))),
        PartName::AvgBitRate => Ok(Part::AvgBitRate(Some(rate(alloc, value, "avg_bit_rate")?))),
    }
}

/// A tag with its name.
fn tag_part(alloc: Global, value: &Value, name: Text) -> Result<Part, BodyFault>
    ensures answer { Answers (part_from (names.Tag name) (view value.now)) result }
    ensures texts { is_utf8 name ≡ true → IfOk result (λ part. IsTrue (is_part_text part)) }
{
    let tag = valued(alloc, value, "tags", &TagRule { name: &name })?;
    Ok(Part::Tag(name, Some(tag)))
}

/// A bit rate, in bits per second.
fn rate(alloc: Global, value: &Value, name: &str) -> Result<u64, BodyFault>
    ensures { Answers (rate name.now (view value.now)) result }
{
    let rule = WholeRule {
        least: 0,
        most: LAST_WHOLE,
    };
    valued(alloc, value, name, &rule)
}
