//! The names that a request's query may have, each with what its value must spell.
ghost use Rattle.std.specs.Prelude.{◌≡◌};
ghost use Rattle.http_queries.specs.Rules as spec;
ghost use Rattle.http_queries.specs.Rules.{is_read, rule_of};

use crate::numbers::{is_word, read_limit, read_point, read_truth};
use json_bodies::read_format;
use media_rows::read_id;
use time_range::read_range;

/// What a query asks for: a list of sources, of flows or of segments, or that segments are deleted.
#[derive(Clone, Copy, Debug, PartialEq, Eq)]
pub enum QueryKind {
    Sources,
    Flows,
    Segments,
    Cut,
}

/// What the value of a name must spell.
#[derive(Clone, Copy, Debug, PartialEq, Eq)]
pub(crate) enum ValueRule {
    /// Any text.
    Any,
    Id,
    /// The key of a page: a point.
    Point,
    Format,
    Limit,
    Range,
    Truth,
    /// The name itself is a fault.
    Never,
}

/// The rule of a name, where it is a listed one.
#[tactic(auto, unfolding(crate::specs::Rules::rule_of))]
pub(crate) fn rule_of(kind: QueryKind, name: &[u8]) -> Option<ValueRule>
    ensures { result ≡ rule_of kind name.now }
{
    match kind {
        QueryKind::Sources => source_rule(name),
        QueryKind::Flows => flow_rule(name),
        QueryKind::Segments => segment_rule(name),
        QueryKind::Cut => Some(cut_rule(name)),
    }
}

fn source_rule(name: &[u8]) -> Option<ValueRule>
    ensures { result ≡ spec.source_rule name.now }
{
    if is_word(name, "label") {
        Some(ValueRule::Any)
    } else if is_word(name, "format") {
        Some(ValueRule::Format)
    } else if is_word(name, "limit") {
        Some(ValueRule::Limit)
    } else if is_word(name, "page") {
        Some(ValueRule::Id)
    } else {
        tag_name_rule(name)
    }
}

fn flow_rule(name: &[u8]) -> Option<ValueRule>
    ensures { result ≡ spec.flow_rule name.now }
{
    if is_word(name, "source_id") {
        Some(ValueRule::Id)
    } else if is_word(name, "timerange") {
        Some(ValueRule::Range)
    } else if is_word(name, "codec") {
        Some(ValueRule::Any)
    } else if is_word(name, "frame_width") || is_word(name, "frame_height") {
        Some(ValueRule::Never)
    } else {
        source_rule(name)
    }
}

fn segment_rule(name: &[u8]) -> Option<ValueRule>
    ensures { result ≡ spec.segment_rule name.now }
{
    if is_word(name, "timerange") {
        Some(ValueRule::Range)
    } else if is_word(name, "object_id") {
        Some(ValueRule::Any)
    } else if is_word(name, "reverse_order") {
        Some(ValueRule::Truth)
    } else if is_word(name, "limit") {
        Some(ValueRule::Limit)
    } else if is_word(name, "page") {
        Some(ValueRule::Point)
    } else {
        None
    }
}

fn cut_rule(name: &[u8]) -> ValueRule
    ensures { result ≡ spec.cut_rule name.now }
{
    if is_word(name, "timerange") {
        ValueRule::Range
    } else {
        ValueRule::Never
    }
}

fn tag_name_rule(name: &[u8]) -> Option<ValueRule>
    ensures { result ≡ spec.tag_name_rule name.now }
{
    if name.starts_with(b"tag.") {
        Some(ValueRule::Any)
    } else if name.starts_with(b"tag_exists.") {
        Some(ValueRule::Truth)
    } else {
        None
    }
}

/// Whether a value spells what a rule says.
pub(crate) fn is_read(rule: ValueRule, value: &[u8]) -> bool
    ensures { result ≡ is_read rule value.now }
{
    match rule {
        ValueRule::Any => true,
        ValueRule::Id => read_id(value).is_some(),
        ValueRule::Point => read_point(value).is_some(),
        ValueRule::Format => read_format(value).is_some(),
        ValueRule::Limit => read_limit(value).is_some(),
        ValueRule::Range => read_range(value).is_ok(),
        ValueRule::Truth => read_truth(value).is_some(),
        ValueRule::Never => false,
    }
}
