//! What a change brings.
ghost use Rattle.std.specs.Prelude.{◌≡◌, IfOk};
ghost use Rattle.std.specs.List.{list_all};
ghost use Rattle.media_rows.specs.Ids.{is_object_id};
ghost use Rattle.media_rows.specs.Sound.{are_posts_good, has_good_values, is_part_good};

use crate::ranges::{has_both_ends, is_eternity};
use crate::texts::{are_member_texts, is_body_text, is_hook_text, is_tag_text, is_text_or_none};
use disk_trait::{Memory, Text};
use media_rows::{Change, Part, Segment, is_object_id};
use std::alloc::Global;

/// Whether what a change brings is good. Memory is asked for the essence of a flow alone.
pub fn has_good_values(alloc: Global, change: &Change) -> Result<bool, Memory>
    ensures { IfOk result (λ good. good ≡ has_good_values change.now) }
{
    match change {
        Change::PutFlow { flow, .. } => is_body_text(alloc, flow),
        Change::SetFlow { part, .. } | Change::SetSource { part, .. } => Ok(is_part_good(part)),
        Change::Allocate { objects, .. } => Ok(are_object_ids(objects.items())),
        Change::Store {
            start_block,
            length,
            ..
        } => Ok(0 < *length || *start_block == 0),
        Change::AddSegments { segments, .. } => Ok(are_posts_good(segments.items())),
        Change::AskDelete {
            range,
            delete_flow,
            ..
        } => Ok(!*delete_flow || is_eternity(range)),
        Change::PutHook { hook, .. } => Ok(is_hook_text(hook)),
        Change::DropFlow { .. }
        | Change::CutSegments { .. }
        | Change::DeleteStep { .. }
        | Change::SweepStep { .. }
        | Change::DropHook { .. }
        | Change::Delivered { .. } => Ok(true),
    }
}

/// Whether the texts of a part are good.
fn is_part_good(part: &Part) -> bool
    ensures { result ≡ is_part_good part.now }
{
    match part {
        Part::Tag(_, None) => true,
        Part::Tag(_, Some(tag)) => is_tag_text(tag),
        Part::Label(text) | Part::Description(text) => is_text_or_none(text),
        Part::Collection(members) => are_member_texts(members.items()),
        Part::ReadOnly(_) | Part::MaxBitRate(_) | Part::AvgBitRate(_) => true,
    }
}

fn are_object_ids(ids: &[Text]) -> bool
    ensures { result ≡ list_all is_object_id ids.now }
{
    ids.iter().all(|id| is_object_id(id.bytes()))
}

/// Whether each segment of a post is bounded at both ends, and isn't never.
fn are_posts_good(posts: &[Segment]) -> bool
    ensures { result ≡ are_posts_good posts.now }
{
    posts.iter().all(|post| has_both_ends(&post.range))
}
