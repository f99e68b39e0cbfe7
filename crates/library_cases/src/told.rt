//! Replies in a few words. Ids are numbers, and points of time count half nanoseconds.
use media_rows::{
    DeleteRow, DeleteStatus, FlowBody, FlowShown, HookShown, ObjectRow, ObjectState, Refusal,
    Reply, SegmentRow, SourceRow, View,
};
use std::{fmt, str};
use time_range::TimeRange;

/// A reply, to be printed.
#[derive(Drop)]
pub(crate) struct ShownReply<'a>(pub(crate) &'a Reply);

impl fmt::Display for ShownReply<'_> {
    fn fmt<W: fmt::Write>(&self, f: &mut fmt::Formatter<W>) -> fmt::Result {
        match self.0 {
            Reply::Created => f.write_str("created"),
            Reply::CreatedObjects(objects) => {
                f.write_str("created")?;
                for object in objects.items() {
                    write!(f, " {}", word(object.bytes()))?;
                }
                Ok(())
            }
            Reply::Accepted(row) => write!(f, "accepted {}", row.serial),
            Reply::Done => f.write_str("done"),
            Reply::Shown(view) => tell_view(view, f),
            Reply::Media(length) => write!(f, "{length} bytes"),
            Reply::Refused(why) => tell_refusal(why, f),
            Reply::Partly(failed) => write!(f, "{} failed", failed.items().len()),
        }
    }
}

/// Bytes as text.
fn word(bytes: &[u8]) -> &str {
    str::from_utf8(bytes).unwrap_or("no text")
}

/// What stands behind the head of a response (RFC 9112, section 2.1).
pub(crate) fn body_of(response: &[u8]) -> &str {
    match word(response).split_once("\r\n\r\n") {
        Some((_, body)) => body,
        None => "no head",
    }
}

/// A refusal by its number, and what it names.
fn tell_refusal<W: fmt::Write>(why: &Refusal, f: &mut fmt::Formatter<W>) -> fmt::Result {
    write!(f, "refused {}", why.number())?;
    match why {
        Refusal::Missing(name)
        | Refusal::WrongKind(name)
        | Refusal::TooLong(name)
        | Refusal::OutOfRange(name)
        | Refusal::BadTimerange(name)
        | Refusal::BadQuery(name)
        | Refusal::NotSet(name)
        | Refusal::IdTaken(name)
        | Refusal::NoObject(name) => write!(f, " {}", word(name.bytes())),
        Refusal::CollectedMissing(flow) => write!(f, " {flow}"),
        Refusal::Overlap(range) => tell_range(range, f),
        _ => Ok(()),
    }
}

/// A blank, and the first and the last point of a range; nothing where it has none at an end.
fn tell_range<W: fmt::Write>(range: &TimeRange, f: &mut fmt::Formatter<W>) -> fmt::Result {
    f.write_str(" ")?;
    if let Some(low) = range.low() {
        write!(f, "{low}")?;
    }
    f.write_str("..")?;
    if let Some(high) = range.high() {
        write!(f, "{high}")?;
    }
    Ok(())
}

/// What is shown.
fn tell_view<W: fmt::Write>(view: &View, f: &mut fmt::Formatter<W>) -> fmt::Result {
    match view {
        View::Root => f.write_str("root"),
        View::Service => f.write_str("service"),
        View::Source(row) => tell_source(row, f),
        View::Sources(rows, next) => tell_sources(rows.items(), *next, f),
        View::Flow(flow) => tell_flow(flow, f),
        View::Flows(rows, next) => tell_flows(rows.items(), *next, f),
        View::Segments(rows, next) => tell_segments(rows.items(), *next, f),
        View::Object { row, flows } => tell_object(row, flows.items(), f),
        View::Request(row) => tell_request(row, f),
        View::Requests(rows) => tell_requests(rows.items(), f),
        View::Hooks(rows) => tell_hooks(rows.items(), f),
        View::OnePart(_) => f.write_str("part"),
        View::AllTags(tags) => write!(f, "{} tags", tags.items().len()),
    }
}

/// The key behind which the next page begins, if there is one.
fn tell_next<W: fmt::Write>(next: Option<i128>, f: &mut fmt::Formatter<W>) -> fmt::Result {
    match next {
        Some(key) => write!(f, ", then behind {key}"),
        None => Ok(()),
    }
}

/// The moments of a source.
fn tell_source<W: fmt::Write>(row: &SourceRow, f: &mut fmt::Formatter<W>) -> fmt::Result {
    write!(
        f,
        "source {}, made {}, set {}",
        row.id, row.created, row.updated
    )
}

fn tell_sources<W: fmt::Write>(
    rows: &[SourceRow],
    next: Option<i128>,
    f: &mut fmt::Formatter<W>,
) -> fmt::Result {
    f.write_str("sources")?;
    for row in rows {
        write!(f, " {}", row.id)?;
    }
    tell_next(next, f)
}

/// The moments of a flow, how many flows it collects, the hull of its segments, and some of its texts.
fn tell_flow<W: fmt::Write>(flow: &FlowShown, f: &mut fmt::Formatter<W>) -> fmt::Result {
    let row = &flow.row;
    write!(
        f,
        "flow {}, made {}, set {}",
        row.body.id, row.created, row.metadata_updated
    )?;
    if let Some(moment) = row.segments_updated {
        write!(f, ", segments {moment}")?;
    }
    write!(f, ", collects {}, spans", row.body.members.items().len())?;
    tell_range(&flow.hull, f)?;
    tell_texts(&row.body, f)
}

/// The label of a flow, the number of its tags and its essence text, where it has them.
fn tell_texts<W: fmt::Write>(body: &FlowBody, f: &mut fmt::Formatter<W>) -> fmt::Result {
    if let Some(label) = &body.label {
        write!(f, ", label {}", word(label.bytes()))?;
    }
    if !body.tags.items().is_empty() {
        write!(f, ", {} tags", body.tags.items().len())?;
    }
    if let Some(essence) = &body.essence {
        write!(f, ", essence {}", word(essence.bytes()))?;
    }
    Ok(())
}

fn tell_flows<W: fmt::Write>(
    rows: &[FlowShown],
    next: Option<i128>,
    f: &mut fmt::Formatter<W>,
) -> fmt::Result {
    f.write_str("flows")?;
    for flow in rows {
        write!(f, " {}", flow.row.body.id)?;
    }
    tell_next(next, f)
}

fn tell_segments<W: fmt::Write>(
    rows: &[SegmentRow],
    next: Option<i128>,
    f: &mut fmt::Formatter<W>,
) -> fmt::Result {
    f.write_str("segments")?;
    for row in rows {
        tell_range(&row.segment.range, f)?;
    }
    tell_next(next, f)
}

/// The length of an object's bytes, if it has them, and the flows that refer to it.
fn tell_object<W: fmt::Write>(
    row: &ObjectRow,
    flows: &[u128],
    f: &mut fmt::Formatter<W>,
) -> fmt::Result {
    match row.state {
        ObjectState::Stored { length, .. } => write!(f, "object of {length} bytes, flows")?,
        ObjectState::Allocated => f.write_str("object without bytes, flows")?,
    }
    for flow in flows {
        write!(f, " {flow}")?;
    }
    Ok(())
}

/// The serial of a delete request, and how far it is.
fn tell_request<W: fmt::Write>(row: &DeleteRow, f: &mut fmt::Formatter<W>) -> fmt::Result {
    let status = match row.status {
        DeleteStatus::Created => "created",
        DeleteStatus::Started => "started",
        DeleteStatus::Done => "done",
    };
    write!(f, "request {} {status}", row.serial)
}

fn tell_requests<W: fmt::Write>(rows: &[DeleteRow], f: &mut fmt::Formatter<W>) -> fmt::Result {
    f.write_str("requests")?;
    for row in rows {
        write!(f, " {}", row.serial)?;
    }
    Ok(())
}

/// How many events wait for each hook.
fn tell_hooks<W: fmt::Write>(hooks: &[HookShown], f: &mut fmt::Formatter<W>) -> fmt::Result {
    f.write_str("hooks")?;
    for hook in hooks {
        write!(f, " {}", hook.waiting)?;
    }
    Ok(())
}
