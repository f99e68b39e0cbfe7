//! What commands bring: bodies of flows, hooks, ranges and posts, each good.
ghost use Rattle.std.specs.Prelude.{◌≡◌, IfOk, IfSome, IsTrue};
ghost use Rattle.std.specs.Str.{is_utf8};
ghost use Rattle.media_rows.specs.Good.{is_body_text};
ghost use Rattle.media_rows.specs.Ranges.{has_both_ends};
ghost use Rattle.media_rows.specs.Sound.{are_posts_good, is_new_hook_good};

use disk_trait::{Memory, Text};
use good_values::has_both_ends;
use media_rows::{
    EventKind, EventList, FlowBody, FormatKind, Hook, MemberList, PostList, Segment, TagList,
};
use std::alloc::Global;
use time_range::{End, TimeRange, Ts};

/// The nanoseconds from one segment to the next, of which each takes the first half.
const STEP: i128 = 2_000_000_000;

/// Each kind of event.
const ALL_EVENTS: [EventKind; 8] = [
    EventKind::FlowCreated,
    EventKind::FlowUpdated,
    EventKind::FlowDeleted,
    EventKind::SegmentsAdded,
    EventKind::SegmentsDeleted,
    EventKind::SourceCreated,
    EventKind::SourceUpdated,
    EventKind::SourceDeleted,
];

/// A text of UTF-8.
pub(crate) fn text_of(alloc: Global, text: &str) -> Result<Text, Memory>
    ensures { IfOk result (λ text. IsTrue (is_utf8 text)) }
{
    Text::from_bytes(alloc, text.as_bytes())
}

/// A flow of a source, that has no member but its format.
pub(crate) fn flow_body(alloc: Global, id: u128, source: u128) -> FlowBody
    ensures { IsTrue (is_body_text result) }
{
    FlowBody {
        id,
        source,
        format: FormatKind::Video,
        read_only: false,
        codec: None,
        container: None,
        label: None,
        description: None,
        max_bit_rate: None,
        avg_bit_rate: None,
        tags: TagList::new(alloc),
        members: MemberList::new(alloc),
        essence: None,
    }
}

/// Each kind of event, as a list.
fn all_events(alloc: Global) -> Result<EventList, Memory> {
    let mut events = EventList::new(alloc);
    for kind in &ALL_EVENTS {
        events.push(*kind)?;
    }
    Ok(events)
}

/// A hook that takes each event.
pub(crate) fn hook(alloc: Global, url: &str) -> Result<Hook, Memory>
    ensures { IfOk result (λ hook. IsTrue (is_new_hook_good hook)) }
{
    let events = all_events(alloc)?;
    Ok(Hook {
        url: text_of(alloc, url)?,
        events,
        key_name: None,
        key_value: None,
        flow_ids: None,
        source_ids: None,
    })
}

/// The range of so many segments, from the one at a place on. It is never where that lies past the end of the line.
pub(crate) fn range(place: u64, count: u64) -> TimeRange {
    let low = i128::from(place) * STEP;
    let high = low + i128::from(count) * STEP;
    match (Ts::from_nanos(low), Ts::from_nanos(high - STEP / 2)) {
        (Some(low), Some(high)) => TimeRange::between(End::Including(low), End::Excluding(high)),
        _ => TimeRange::never(),
    }
}

/// A segment at a place, and `None` where that lies past the end of the line.
fn segment(alloc: Global, object: &Text, place: u64) -> Result<Option<Segment>, Memory>
    ensures { IfOk result (λ post. IfSome post (λ post. IsTrue (has_both_ends post.range))) }
{
    let range = range(place, 1);
    let (Some(start), true) = (Ts::from_nanos(0), has_both_ends(&range)) else {
        return Ok(None);
    };
    Ok(Some(Segment {
        object: object.copy(alloc)?,
        range,
        ts_offset: start,
        last_duration: None,
        sample_offset: 0,
        sample_count: None,
        key_frames: None,
    }))
}

/// A post of so many segments of an object, from the one at a place on. What lies past the end of the line is left out.
pub(crate) fn posts(
    alloc: Global,
    object: &Text,
    place: u64,
    count: u64,
) -> Result<PostList, Memory>
    ensures { IfOk result (λ posts. IsTrue (are_posts_good posts.segments)) }
{
    let mut posts = PostList::new(alloc, false);
    for number in 0..count {
        if let Some(post) = segment(alloc, object, place.saturating_add(number))? {
            posts.push(post)?;
        }
    }
    Ok(posts)
}
