//! Refusals, and the segments of a post that aren't kept.
ghost use Rattle.std.specs.Prelude.{◌≡◌, ◌++◌, IfOk, OnOk, codes};
ghost use Rattle.json_replies.specs.Shapes.{Appends, list_tokens, member_tokens, string_value, where_set};
ghost use Rattle.media_rows.specs.RefusalTable.{refusal_name};
ghost use Rattle.json_replies.specs.Replies.{damage_text, failed_value, partly_value, refusal_detail, refusal_value};

use crate::json_text::JsonText;
use crate::shows::{Shows, show_list, show_member, show_word};
use crate::values::{Ids, Ranges, Texts};
use disk_trait::{Memory, Text};
use media_rows::{Digest, FailedList, FailedSegment, Refusal, print_digest};
use std::alloc::Global;

/// Refusals.
pub(crate) struct Refusals;

/// Segments of a post that aren't kept.
struct FailedSegments;

/// Lists of such segments.
struct FailedLists;

impl Shows<Refusal> for Refusals {
    ghost shown = { λ _. refusal_value };

    #[tactic(auto, unfolding(crate::specs::Replies::refusal_value))]
    fn show(&self, alloc: Global, refusal: &Refusal, out: &mut JsonText) -> Result<(), Memory> {
        out.begin_object()?;
        show_detail(alloc, refusal, out)?;
        show_word("type", refusal_name(refusal), out)?;
        out.end_object()
    }
}

/// Appends the member with the detail, where the refusal has one.
#[tactic(auto, unfolding(crate::specs::Shapes::member_tokens))]
fn show_detail(alloc: Global, refusal: &Refusal, out: &mut JsonText) -> Result<(), Memory>
    ensures { OnOk result (Appends out.old out.new (member_tokens
        (where_set (codes "detail") string_value (refusal_detail refusal.now)))) }
{
    match refusal {
        Refusal::Missing(text)
        | Refusal::WrongKind(text)
        | Refusal::TooLong(text)
        | Refusal::OutOfRange(text)
        | Refusal::BadTimerange(text)
        | Refusal::BadQuery(text)
        | Refusal::NotSet(text)
        | Refusal::IdTaken(text)
        | Refusal::NoObject(text) => show_member(alloc, "detail", text, &Texts, out),
        Refusal::CollectedMissing(id) => show_member(alloc, "detail", id, &Ids, out),
        Refusal::Overlap(range) => show_member(alloc, "detail", range, &Ranges, out),
        Refusal::ObjectDamaged { kept, found } => {
            let text = damage_text(alloc, *kept, *found)?;
            show_member(alloc, "detail", &text, &Texts, out)
        }
        _ => Ok(()),
    }
}

/// The digest that is kept of an object's bytes and the one that was found, with a blank between.
#[tactic(auto, unfolding(crate::specs::Replies::damage_text))]
fn damage_text(alloc: Global, kept: Digest, found: Digest) -> Result<Text, Memory>
    ensures { IfOk result (λ text. text ≡ damage_text kept found) }
{
    let mut text = print_digest(alloc, kept)?;
    text.push(b' ')?;
    text.append(print_digest(alloc, found)?.bytes())?;
    Ok(text)
}

impl Shows<FailedSegment> for FailedSegments {
    ghost shown = { λ _. failed_value };

    #[tactic(auto, unfolding(crate::specs::Replies::failed_value))]
    fn show(
        &self,
        alloc: Global,
        failed: &FailedSegment,
        out: &mut JsonText,
    ) -> Result<(), Memory> {
        out.begin_object()?;
        show_member(alloc, "error", &failed.refusal, &Refusals, out)?;
        show_member(alloc, "object_id", &failed.object, &Texts, out)?;
        show_member(alloc, "timerange", &failed.range, &Ranges, out)?;
        out.end_object()
    }
}

impl Shows<FailedList> for FailedLists {
    ghost shown = { λ _. list_tokens failed_value };

    fn show(&self, alloc: Global, failed: &FailedList, out: &mut JsonText) -> Result<(), Memory> {
        show_list(alloc, failed.items(), &FailedSegments, out)
    }
}

/// Appends what a post answers of which some segments aren't kept.
#[tactic(auto, unfolding(crate::specs::Replies::partly_value))]
pub(crate) fn show_partly(
    alloc: Global,
    failed: &FailedList,
    out: &mut JsonText,
) -> Result<(), Memory>
    ensures { OnOk result (Appends out.old out.new (partly_value failed.now)) }
{
    out.begin_object()?;
    show_member(alloc, "failed_segments", failed, &FailedLists, out)?;
    out.end_object()
}

/// The refusal's name.
fn refusal_name(refusal: &Refusal) -> &'static str
    ensures { result.now ≡ refusal_name refusal.now }
{
    match refusal {
        Refusal::BadHead => "BadHead",
        Refusal::BadFraming => "BadFraming",
        Refusal::LengthRequired => "LengthRequired",
        Refusal::TooLarge => "TooLarge",
        Refusal::Coding => "Coding",
        Refusal::NoRoute => "NoRoute",
        Refusal::NoMethod => "NoMethod",
        Refusal::NotJson => "NotJson",
        Refusal::Fractional => "Fractional",
        Refusal::Missing(_) => "Missing",
        Refusal::WrongKind(_) => "WrongKind",
        Refusal::TooLong(_) => "TooLong",
        Refusal::OutOfRange(_) => "OutOfRange",
        Refusal::BadTimerange(_) => "BadTimerange",
        Refusal::BadQuery(_) => "BadQuery",
        Refusal::NoSource => "NoSource",
        Refusal::NoFlow => "NoFlow",
        Refusal::UnknownObject => "UnknownObject",
        Refusal::NoRequest => "NoRequest",
        Refusal::NotSet(_) => "NotSet",
        Refusal::Deleting => "Deleting",
        Refusal::ReadOnly => "ReadOnly",
        Refusal::SourceFormat => "SourceFormat",
        Refusal::FlowChanged => "FlowChanged",
        Refusal::CollectsItself => "CollectsItself",
        Refusal::CollectedMissing(_) => "CollectedMissing",
        Refusal::IdTaken(_) => "IdTaken",
        Refusal::OtherBytes => "OtherBytes",
        Refusal::NoObject(_) => "NoObject",
        Refusal::Overlap(_) => "Overlap",
        Refusal::JournalFull => "JournalFull",
        Refusal::MediaFull => "MediaFull",
        Refusal::ObjectDamaged { .. } => "ObjectDamaged",
    }
}
