//! Values that stand in many answers.
ghost use Rattle.std.specs.Prelude.{◌≡◌, IfOk};
ghost use Rattle.time_range.specs.Printing.{canonical_range_text, canonical_ts_text};
ghost use Rattle.media_rows.specs.Formats.{event_name, format_name, hook_status_name, status_name};
ghost use Rattle.json_replies.specs.Shapes.{number_value, string_value, truth_value};
ghost use Rattle.json_replies.specs.Values.{digest_value, event_value, format_value, hook_status_value, id_value, kept_value, moment_value, range_value, stamp_value, status_value};

use crate::json_text::JsonText;
use crate::shows::Shows;
use disk_trait::{Memory, Text};
use media_rows::{
    DeleteStatus, Digest, EventKind, FormatKind, moment_text, print_digest, print_id,
};
use std::alloc::Global;
use time_range::{TimeRange, Ts, print_range, print_ts};

/// The last moment: 9999-12-31T23:59:59Z, in seconds since 1970-01-01T00:00:00Z.
const LAST_MOMENT: u64 = 253_402_300_799;

/// Texts in UTF-8.
pub(crate) struct Texts;

/// Texts that are JSON themselves.
pub(crate) struct Verbatim;

/// Whole numbers.
pub(crate) struct Numbers;

/// Truth values.
pub(crate) struct Truths;

/// Ids of sources and flows.
pub(crate) struct Ids;

/// Moments, in seconds since 1970-01-01T00:00:00Z.
pub(crate) struct Moments;

/// Digests, in hexadecimal digits.
pub(crate) struct Digests;

/// Timestamps.
pub(crate) struct Stamps;

/// Timeranges.
pub(crate) struct Ranges;

/// Formats by their names.
pub(crate) struct Formats;

/// Kinds of events by their names.
pub(crate) struct Events;

/// States of delete requests by their names.
pub(crate) struct Statuses;

/// States of hooks by their names: whether one has failed.
pub(crate) struct HookStatuses;

impl Shows<Text> for Texts {
    ghost shown = { λ _. string_value };

    fn show(&self, _alloc: Global, value: &Text, out: &mut JsonText) -> Result<(), Memory> {
        out.text(value.bytes())
    }
}

impl Shows<Text> for Verbatim {
    ghost shown = { λ _. kept_value };

    #[tactic(auto, unfolding(crate::specs::Values::kept_value))]
    fn show(&self, alloc: Global, value: &Text, out: &mut JsonText) -> Result<(), Memory> {
        out.kept(alloc, value.bytes())
    }
}

impl Shows<u64> for Numbers {
    ghost shown = { λ _. number_value };

    fn show(&self, _alloc: Global, value: &u64, out: &mut JsonText) -> Result<(), Memory> {
        out.number(*value)
    }
}

impl Shows<bool> for Truths {
    ghost shown = { λ _. truth_value };

    fn show(&self, _alloc: Global, value: &bool, out: &mut JsonText) -> Result<(), Memory> {
        out.truth(*value)
    }
}

impl Shows<u128> for Ids {
    ghost shown = { λ _. id_value };

    fn show(&self, alloc: Global, value: &u128, out: &mut JsonText) -> Result<(), Memory> {
        let printed = print_id(alloc, *value)?;
        out.text(printed.bytes())
    }
}

impl Shows<u64> for Moments {
    ghost shown = { λ _. moment_value };

    /// Every moment of a reply has a text; one past the last would be answered as want of memory.
    fn show(&self, alloc: Global, value: &u64, out: &mut JsonText) -> Result<(), Memory> {
        if *value > LAST_MOMENT {
            return Err(Memory);
        }
        let printed = moment_text(alloc, *value)?;
        out.text(printed.bytes())
    }
}

impl Shows<Digest> for Digests {
    ghost shown = { λ _. digest_value };

    fn show(&self, alloc: Global, value: &Digest, out: &mut JsonText) -> Result<(), Memory> {
        let printed = print_digest(alloc, *value)?;
        out.text(printed.bytes())
    }
}

impl Shows<Ts> for Stamps {
    ghost shown = { λ _. stamp_value };

    fn show(&self, alloc: Global, value: &Ts, out: &mut JsonText) -> Result<(), Memory> {
        let printed = stamp_text(alloc, *value)?;
        out.text(printed.bytes())
    }
}

impl Shows<TimeRange> for Ranges {
    ghost shown = { λ _. range_value };

    fn show(&self, alloc: Global, value: &TimeRange, out: &mut JsonText) -> Result<(), Memory> {
        let printed = range_text(alloc, value)?;
        out.text(printed.bytes())
    }
}

impl Shows<FormatKind> for Formats {
    ghost shown = { λ _. format_value };

    fn show(&self, _alloc: Global, value: &FormatKind, out: &mut JsonText) -> Result<(), Memory> {
        out.string(format_name(*value))
    }
}

impl Shows<EventKind> for Events {
    ghost shown = { λ _. event_value };

    fn show(&self, _alloc: Global, value: &EventKind, out: &mut JsonText) -> Result<(), Memory> {
        out.string(event_name(*value))
    }
}

impl Shows<DeleteStatus> for Statuses {
    ghost shown = { λ _. status_value };

    fn show(&self, _alloc: Global, value: &DeleteStatus, out: &mut JsonText) -> Result<(), Memory> {
        out.string(status_name(*value))
    }
}

impl Shows<bool> for HookStatuses {
    ghost shown = { λ _. hook_status_value };

    fn show(&self, _alloc: Global, value: &bool, out: &mut JsonText) -> Result<(), Memory> {
        out.string(hook_status_name(*value))
    }
}

fn format_name(format: FormatKind) -> &'static str
    ensures { result.now ≡ format_name format }
{
    match format {
        FormatKind::Video => "urn:x-nmos:format:video",
        FormatKind::Audio => "urn:x-nmos:format:audio",
        FormatKind::DataEssence => "urn:x-nmos:format:data",
        FormatKind::Multi => "urn:x-nmos:format:multi",
        FormatKind::Image => "urn:x-tam:format:image",
    }
}

fn event_name(event: EventKind) -> &'static str
    ensures { result.now ≡ event_name event }
{
    match event {
        EventKind::FlowCreated => "flows/created",
        EventKind::FlowUpdated => "flows/updated",
        EventKind::FlowDeleted => "flows/deleted",
        EventKind::SegmentsAdded => "flows/segments_added",
        EventKind::SegmentsDeleted => "flows/segments_deleted",
        EventKind::SourceCreated => "sources/created",
        EventKind::SourceUpdated => "sources/updated",
        EventKind::SourceDeleted => "sources/deleted",
    }
}

fn status_name(status: DeleteStatus) -> &'static str
    ensures { result.now ≡ status_name status }
{
    match status {
        DeleteStatus::Created => "created",
        DeleteStatus::Started => "started",
        DeleteStatus::Done => "done",
    }
}

fn hook_status_name(failed: bool) -> &'static str
    ensures { result.now ≡ hook_status_name failed }
{
    if failed { "error" } else { "started" }
}

/// The canonical text of a timestamp.
fn stamp_text(alloc: Global, stamp: Ts) -> Result<Text, Memory>
    ensures { IfOk result (λ text. text ≡ canonical_ts_text stamp) }
{
    let mut printed = Vec::new(alloc);
    match print_ts(stamp, &mut printed) {
        Ok(()) => Ok(Text::from_vec(printed)),
        Err(_) => Err(Memory),
    }
}

/// The canonical text of a range.
fn range_text(alloc: Global, range: &TimeRange) -> Result<Text, Memory>
    ensures { IfOk result (λ text. text ≡ canonical_range_text range.now) }
{
    let mut printed = Vec::new(alloc);
    match print_range(range, &mut printed) {
        Ok(()) => Ok(Text::from_vec(printed)),
        Err(_) => Err(Memory),
    }
}
