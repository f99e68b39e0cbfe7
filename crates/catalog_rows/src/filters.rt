//! Filters of lists: whether a flow or a source passes.
ghost use Rattle.std.specs.Prelude.{◌≡◌, option_copied};
ghost use Rattle.media_rows.specs.Lists.{has_text};
ghost use Rattle.media_rows.specs.Views.{has_value, matches_format, matches_id, matches_text, passes_flow, passes_source, passes_tag, passes_tags};

use crate::formats::same_format;
use crate::tags::{find_tag, has_tag, same_text};
use disk_trait::Text;
use media_rows::{FlowFilter, FlowRow, FormatKind, SourceFilter, SourceRow, Tag, TagTest};

/// Whether a flow has the source, the format, the codec, the label and the tags that are asked for.
pub fn passes_flow(wanted: &FlowFilter, row: &FlowRow) -> bool
    ensures { result ≡ passes_flow wanted.now row.now }
{
    matches_id(wanted.source, row.body.source)
        && matches_format(wanted.format, row.body.format)
        && matches_text(&wanted.codec, &row.body.codec)
        && matches_text(&wanted.label, &row.body.label)
        && passes_tags(row.body.tags.items(), wanted.tags.items())
}

/// Whether a source has the format, the label and the tags that are asked for.
pub fn passes_source(wanted: &SourceFilter, row: &SourceRow) -> bool
    ensures { result ≡ passes_source wanted.now row.now }
{
    matches_format(wanted.format, row.format)
        && matches_text(&wanted.label, &row.label)
        && passes_tags(row.tags.items(), wanted.tags.items())
}

fn matches_id(wanted: Option<u128>, there: u128) -> bool
    ensures { result ≡ matches_id wanted there }
{
    match wanted {
        None => true,
        Some(asked) => asked == there,
    }
}

fn matches_format(wanted: Option<FormatKind>, there: FormatKind) -> bool
    ensures { result ≡ matches_format wanted there }
{
    match wanted {
        None => true,
        Some(asked) => same_format(asked, there),
    }
}

fn matches_text(wanted: &Option<Text>, there: &Option<Text>) -> bool
    ensures { result ≡ matches_text wanted.now there.now }
{
    match (wanted, there) {
        (None, _) => true,
        (Some(_), None) => false,
        (Some(asked), Some(text)) => same_text(asked, text),
    }
}

fn passes_tags(tags: &[Tag], tests: &[TagTest]) -> bool
    ensures { result ≡ passes_tags tags.now tests.now }
{
    tests.iter().all(|test| passes_tag(tags, test))
}

fn passes_tag(tags: &[Tag], test: &TagTest) -> bool
    ensures { result ≡ passes_tag tags.now test.now }
{
    match test {
        TagTest::Equals(name, value) => has_value(value, find_tag(tags, name)),
        TagTest::Exists(name, there) => has_tag(tags, name) == *there,
    }
}

fn has_value(value: &Text, tag: Option<&Tag>) -> bool
    ensures { result ≡ has_value value.now (option_copied tag.entry) }
{
    match tag {
        None => false,
        Some(kept) => has_text(value, kept.values.items()),
    }
}

fn has_text(text: &Text, texts: &[Text]) -> bool
    ensures { result ≡ has_text text.now texts.now }
{
    texts.iter().any(|other| same_text(text, other))
}
