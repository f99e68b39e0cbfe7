//! What the pairs of a query ask for. A value that can't be read counts as absent: it is a fault of the
//! query, which is looked for first.
ghost use Rattle.std.specs.Prelude.{◌≡◌, ◌≤◌, IfOk, codes, option_and_then};
ghost use Rattle.json_bodies.specs.Flow.{format_of};
ghost use Rattle.http_queries.specs.Filters as spec;
ghost use Rattle.http_queries.specs.Filters.{flow_filter, limit_of, asked_list_page, segment_filter, asked_segment_page, source_filter};
ghost use Rattle.http_queries.specs.Pairs.{value_of};

use crate::numbers::{USUAL_ITEMS, read_id_key, read_limit, read_point, read_truth};
use crate::pairs::{Pair, PairList, value_of};
use crate::tags::read_tag_tests;
use disk_trait::{Memory, Text};
use json_bodies::read_format;
use media_rows::{FlowFilter, FormatKind, Page, SegmentFilter, SourceFilter, read_id};
use std::alloc::Global;
use time_range::TimeRange;

/// The timerange that is asked for, where one is.
pub fn read_range(pairs: &PairList) -> Option<TimeRange>
    ensures { result ≡ spec.range_of pairs.now }
{
    time_range::read_range(value_of(pairs.items(), b"timerange")?).ok()
}

/// The timerange in which segments are deleted: all of the timeline where none is named.
pub fn read_cut_range(pairs: &PairList) -> TimeRange
    ensures { result ≡ spec.range_or_all pairs.now }
{
    read_range(pairs).unwrap_or(TimeRange::eternity())
}

/// How many items are asked for: 1 to 1,000.
fn read_limit_of(pairs: &[Pair]) -> u64
    ensures value { result ≡ limit_of pairs.now }
    ensures least { 1 ≤ result }
{
    match value_of(pairs, b"limit") {
        Some(value) => read_limit(value).unwrap_or(USUAL_ITEMS),
        None => USUAL_ITEMS,
    }
}

/// The page of a list of flows or sources, by rising id.
pub fn read_list_page(pairs: &PairList) -> Page
    ensures page { result ≡ asked_list_page pairs.now }
    ensures least { 1 ≤ result.limit }
{
    let pairs = pairs.items();
    Page {
        after: value_of(pairs, b"page").and_then(|value| read_id_key(value)),
        limit: read_limit_of(pairs),
        reverse: false,
    }
}

/// The page of a list of segments.
pub fn read_segment_page(pairs: &PairList) -> Page
    ensures page { result ≡ asked_segment_page pairs.now }
    ensures least { 1 ≤ result.limit }
{
    let pairs = pairs.items();
    Page {
        after: value_of(pairs, b"page").and_then(|value| read_point(value)),
        limit: read_limit_of(pairs),
        reverse: is_reverse(pairs),
    }
}

fn is_reverse(pairs: &[Pair]) -> bool
    ensures { result ≡ spec.is_reverse pairs.now }
{
    match value_of(pairs, b"reverse_order") {
        Some(value) => read_truth(value).unwrap_or(false),
        None => false,
    }
}

/// The value of a name, where there is one.
fn text_of(alloc: Global, pairs: &[Pair], name: &[u8]) -> Result<Option<Text>, Memory>
    ensures { IfOk result (λ text. text ≡ value_of name.now pairs.now) }
{
    match value_of(pairs, name) {
        Some(value) => Ok(Some(Text::from_bytes(alloc, value)?)),
        None => Ok(None),
    }
}

/// The format that is asked for.
fn read_format_of(pairs: &[Pair]) -> Option<FormatKind>
    ensures { result ≡ option_and_then format_of (value_of (codes "format") pairs.now) }
{
    read_format(value_of(pairs, b"format")?)
}

/// What a listed source must pass.
pub fn read_source_filter(alloc: Global, pairs: &PairList) -> Result<SourceFilter, Memory>
    ensures { IfOk result (λ filter. filter ≡ source_filter pairs.now) }
{
    let pairs = pairs.items();
    Ok(SourceFilter {
        format: read_format_of(pairs),
        label: text_of(alloc, pairs, b"label")?,
        tags: read_tag_tests(alloc, pairs)?,
    })
}

/// What a listed flow must pass.
pub fn read_flow_filter(alloc: Global, pairs: &PairList) -> Result<FlowFilter, Memory>
    ensures { IfOk result (λ filter. filter ≡ flow_filter pairs.now) }
{
    let pairs = pairs.items();
    Ok(FlowFilter {
        source: value_of(pairs, b"source_id").and_then(|value| read_id(value)),
        format: read_format_of(pairs),
        codec: text_of(alloc, pairs, b"codec")?,
        label: text_of(alloc, pairs, b"label")?,
        tags: read_tag_tests(alloc, pairs)?,
    })
}

/// What a listed segment must pass.
pub fn read_segment_filter(alloc: Global, pairs: &PairList) -> Result<SegmentFilter, Memory>
    ensures { IfOk result (λ filter. filter ≡ segment_filter pairs.now) }
{
    Ok(SegmentFilter {
        range: read_cut_range(pairs),
        object: text_of(alloc, pairs.items(), b"object_id")?,
    })
}
