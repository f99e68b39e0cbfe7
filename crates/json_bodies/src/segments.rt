//! Bodies that post segments.
ghost use Rattle.std.specs.Prelude.{◌≡◌, ◌&&◌, nat_le, IfOk, IsTrue, pos};
ghost use Rattle.std.specs.List.{list_all};
ghost use Rattle.serde_json.specs.Data.{item, no_items};
ghost use Rattle.serde_json.specs.View.{view, items_view};
ghost use Rattle.media_rows.specs.Ids.{is_object_id};
ghost use Rattle.json_bodies.specs.Answers.{Answers};
ghost use Rattle.json_bodies.specs.Segments.{object_id, samples_of, segment_of, are_objects, item_count, is_post_list, segments_from, segments_in_items, post_items, segments_in, is_post_good};

use crate::body::{body_refusal, read_body};
use crate::fault::{BodyFault, Breach, RuleFault};
use crate::kinds::{Kind, ObjectIdKind};
use crate::members::{optional, required};
use crate::rules::{LAST_WHOLE, Rule, WholeRule};
use crate::times::{BoundedRule, DurationRule, OffsetRule};
use disk_trait::{Listed, Text};
use media_rows::{PostList, Segment};
use serde_json::Value;
use std::alloc::Global;
use time_range::Ts;

/// The most segments of one post.
const MOST_SEGMENTS: usize = 1_000;

/// What a segment says of samples: how many of the object's samples stand before it, how many it has, and how
/// many of them are key frames.
#[derive(Clone, Copy, Debug, PartialEq, Eq)]
pub(crate) struct Samples {
    pub(crate) offset: u64,
    pub(crate) count: Option<u64>,
    pub(crate) key_frames: Option<u64>,
}

/// The segments that a body posts: one object, which makes the post a single one, or a list of 1 to 1,000.
/// It is our own profile of the Time-addressable Media Store.
pub fn read_segments(alloc: Global, body: &[u8]) -> Result<PostList, BodyFault>
    ensures answer { Answers (segments_in body.now) result }
    ensures good { IfOk result (λ posts. IsTrue (list_all is_post_good posts.segments)) }
{
    let value = read_body(alloc, body)?;
    if value.is_object() {
        return Ok(PostList {
            single: true,
            segments: one_segment(alloc, &value)?,
        });
    }
    match value.as_array() {
        Some(values) if is_post_list(values.as_slice()) => Ok(PostList {
            single: false,
            segments: segments_of(alloc, values.as_slice())?,
        }),
        _ => body_refusal(alloc, Breach::OutOfRange),
    }
}

/// The segment of a post of one object.
fn one_segment(alloc: Global, object: &Value) -> Result<Listed<Segment>, BodyFault>
    ensures answer { Answers (segments_from (item (view object.now) no_items)) result }
    ensures good { IfOk result (λ posts. IsTrue (list_all is_post_good posts)) }
{
    let mut posts = Listed::new(alloc);
    posts.push(segment_of(alloc, object)?)?;
    Ok(posts)
}

/// Whether there are 1 to 1,000 values, each an object.
fn is_post_list(values: &[Value]) -> bool
    ensures { result ≡ is_post_list (items_view values.now) }
{
    has_post_length(values) && are_objects(values)
}

#[tactic(auto, using(crate::proofs::Counts::item_count_of))]
fn has_post_length(values: &[Value]) -> bool
    ensures { result ≡ (nat_le 1 (item_count (items_view values.now))
        && nat_le (item_count (items_view values.now)) MOST_SEGMENTS) }
{
    1 <= values.len() && values.len() <= MOST_SEGMENTS
}

fn are_objects(values: &[Value]) -> bool
    ensures { result ≡ are_objects (items_view values.now) }
{
    for value in values {
        if !value.is_object() {
            return false;
        }
    }
    true
}

/// The segments of objects, one after another.
fn segments_of(alloc: Global, values: &[Value]) -> Result<Listed<Segment>, BodyFault>
    ensures answer { Answers (segments_from (items_view values.now)) result }
    ensures good { IfOk result (λ posts. IsTrue (list_all is_post_good posts)) }
{
    let mut posts = Listed::new(alloc);
    for value in values {
        posts.push(segment_of(alloc, value)?)?;
    }
    Ok(posts)
}

fn segment_of(alloc: Global, object: &Value) -> Result<Segment, BodyFault>
    ensures answer { Answers (segment_of (view object.now)) result }
    ensures good { IfOk result (λ segment. IsTrue (is_post_good segment)) }
{
    let id = required(alloc, object, "object_id", &ObjectIdRule)?;
    let range = required(alloc, object, "timerange", &BoundedRule)?;
    let ts_offset = optional(alloc, object, "ts_offset", &OffsetRule)?;
    let last_duration = optional(alloc, object, "last_duration", &DurationRule)?;
    let samples = samples_of(alloc, object)?;
    Ok(Segment {
        object: id,
        range,
        ts_offset: ts_offset.unwrap_or(zero()),
        last_duration,
        sample_offset: samples.offset,
        sample_count: samples.count,
        key_frames: samples.key_frames,
    })
}

/// The offset that is meant where none is named.
fn zero() -> Ts
    ensures { result ≡ pos 0 }
{
    match Ts::from_nanos(0) {
        Some(zero) => zero,
        None => unreachable!(),
    }
}

/// What a segment says of samples.
fn samples_of(alloc: Global, object: &Value) -> Result<Samples, BodyFault>
    ensures { Answers (samples_of (view object.now)) result }
{
    let rule = WholeRule {
        least: 0,
        most: LAST_WHOLE,
    };
    let offset = optional(alloc, object, "sample_offset", &rule)?;
    let count = optional(alloc, object, "sample_count", &rule)?;
    let key_frames = optional(alloc, object, "key_frame_count", &rule)?;
    Ok(Samples {
        offset: offset.unwrap_or(0),
        count,
        key_frames,
    })
}

/// The id of an object.
#[derive(Drop)]
struct ObjectIdRule;

impl Rule<Text> for ObjectIdRule {
    ghost gives = { λ _. object_id };

    ghost is_good = { λ _. is_object_id };

    fn read(&self, alloc: Global, value: &Value) -> Result<Text, RuleFault> {
        match ObjectIdKind.read(alloc, value)? {
            Some(id) => Ok(id),
            None => Err(RuleFault::Breach(Breach::WrongKind)),
        }
    }
}
