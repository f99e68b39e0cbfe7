//! Segments, and the objects that hold their media.
ghost use Rattle.std.specs.Prelude.{◌≡◌, ◌++◌, ◌∷◌, [], OnOk, codes};
ghost use Rattle.media_rows.specs.Objects.{digest_in_state, is_stored};
ghost use Rattle.json_replies.specs.Rows.{allocated_value, get_url_value, object_value, put_url_members, segment_value, storage_value, stored_length};
ghost use Rattle.json_replies.specs.Shapes.{Appends, list_tokens, object_tokens};

use crate::addresses::Addresses;
use crate::json_text::JsonText;
use crate::lists::IdLists;
use crate::shows::{Shows, show_if_set, show_list, show_member, show_word};
use crate::values::{Digests, Numbers, Ranges, Stamps, Texts, Truths};
use disk_trait::{Memory, Text, TextList};
use media_rows::{Digest, IdList, ObjectRow, ObjectState, SegmentRow};
use std::alloc::Global;

/// Segments, whose media are got behind this base.
#[derive(Drop)]
pub(crate) struct Segments<'a> {
    pub(crate) base: &'a Text,
}

/// Objects by the lists of the addresses where they are got: one each.
#[derive(Drop)]
struct GetUrls<'a> {
    base: &'a Text,
}

/// Objects by where they are put.
#[derive(Drop)]
struct PutUrls<'a> {
    base: &'a Text,
}

/// Objects that were allocated, whose media are put behind this base.
#[derive(Drop)]
struct Allocated<'a> {
    base: &'a Text,
}

/// Lists of such objects.
#[derive(Drop)]
struct AllocatedLists<'a> {
    base: &'a Text,
}

impl<'a> Shows<SegmentRow> for Segments<'a> {
    ghost shown = { λ s. segment_value s.base.now };

    #[tactic(auto, unfolding(crate::specs::Rows::segment_value))]
    fn show(&self, alloc: Global, row: &SegmentRow, out: &mut JsonText) -> Result<(), Memory> {
        let segment = &row.segment;
        out.begin_object()?;
        show_member(
            alloc,
            "get_urls",
            &segment.object,
            &GetUrls { base: self.base },
            out,
        )?;
        show_if_set(alloc, "key_frame_count", &segment.key_frames, &Numbers, out)?;
        show_if_set(alloc, "last_duration", &segment.last_duration, &Stamps, out)?;
        show_member(alloc, "object_id", &segment.object, &Texts, out)?;
        show_if_set(alloc, "sample_count", &segment.sample_count, &Numbers, out)?;
        show_member(
            alloc,
            "sample_offset",
            &segment.sample_offset,
            &Numbers,
            out,
        )?;
        show_member(alloc, "timerange", &segment.range, &Ranges, out)?;
        show_member(alloc, "ts_offset", &segment.ts_offset, &Stamps, out)?;
        out.end_object()
    }
}

impl<'a> Shows<Text> for GetUrls<'a> {
    ghost shown = { λ g object. list_tokens (get_url_value g.base.now) (object ∷ []) };

    fn show(&self, alloc: Global, object: &Text, out: &mut JsonText) -> Result<(), Memory> {
        out.begin_array()?;
        out.begin_object()?;
        show_member(alloc, "url", object, &Addresses { base: self.base }, out)?;
        out.end_object()?;
        out.end_array()
    }
}

impl<'a> Shows<Text> for PutUrls<'a> {
    ghost shown = { λ p object. object_tokens (put_url_members p.base.now object) };

    fn show(&self, alloc: Global, object: &Text, out: &mut JsonText) -> Result<(), Memory> {
        out.begin_object()?;
        show_word("content-type", "application/octet-stream", out)?;
        show_member(alloc, "url", object, &Addresses { base: self.base }, out)?;
        out.end_object()
    }
}

impl<'a> Shows<Text> for Allocated<'a> {
    ghost shown = { λ a. allocated_value a.base.now };

    #[tactic(auto, unfolding(crate::specs::Rows::allocated_value))]
    fn show(&self, alloc: Global, object: &Text, out: &mut JsonText) -> Result<(), Memory> {
        out.begin_object()?;
        show_member(alloc, "object_id", object, &Texts, out)?;
        show_member(alloc, "put_url", object, &PutUrls { base: self.base }, out)?;
        out.end_object()
    }
}

impl<'a> Shows<TextList> for AllocatedLists<'a> {
    ghost shown = { λ a. list_tokens (allocated_value a.base.now) };

    fn show(&self, alloc: Global, objects: &TextList, out: &mut JsonText) -> Result<(), Memory> {
        show_list(alloc, objects.items(), &Allocated { base: self.base }, out)
    }
}

/// Appends what an allocation answers.
#[tactic(auto, unfolding(crate::specs::Rows::storage_value))]
pub(crate) fn show_storage(
    alloc: Global,
    objects: &TextList,
    base: &Text,
    out: &mut JsonText,
) -> Result<(), Memory>
    ensures { OnOk result (Appends out.old out.new (storage_value base.now objects.now)) }
{
    out.begin_object()?;
    show_member(
        alloc,
        "media_objects",
        objects,
        &AllocatedLists { base },
        out,
    )?;
    out.end_object()
}

/// Appends an object with the flows that refer to it.
#[tactic(auto, unfolding(crate::specs::Rows::object_value))]
pub(crate) fn show_object(
    alloc: Global,
    row: &ObjectRow,
    flows: &IdList,
    out: &mut JsonText,
) -> Result<(), Memory>
    ensures { OnOk result (Appends out.old out.new (object_value row.now flows.now)) }
{
    out.begin_object()?;
    show_if_set(alloc, "length", &stored_length(row.state), &Numbers, out)?;
    show_member(alloc, "object_id", &row.id, &Texts, out)?;
    show_member(alloc, "referenced_by_flows", flows, &IdLists, out)?;
    show_if_set(alloc, "sha256", &digest_of(row.state), &Digests, out)?;
    show_member(alloc, "stored", &is_stored(row.state), &Truths, out)?;
    out.end_object()
}

/// The length of a stored object in bytes.
fn stored_length(state: ObjectState) -> Option<u64>
    ensures { result ≡ stored_length state }
{
    match state {
        ObjectState::Allocated => None,
        ObjectState::Stored { length, .. } => Some(length),
    }
}

/// The digest of a stored object's bytes, where it is kept.
fn digest_of(state: ObjectState) -> Option<Digest>
    ensures { result ≡ digest_in_state state }
{
    match state {
        ObjectState::Allocated => None,
        ObjectState::Stored { digest, .. } => digest,
    }
}

/// Whether an object has its bytes.
fn is_stored(state: ObjectState) -> bool
    ensures { result ≡ is_stored state }
{
    match state {
        ObjectState::Allocated => false,
        ObjectState::Stored { .. } => true,
    }
}
