//! What each changing command makes of a library.
ghost use Rattle.std.specs.Prelude.{◌≡◌, IfOk, IsTrue, None};
ghost use Rattle.media_rows.specs.declared.command.Command.TheVariants as commands;
ghost use Rattle.media_rows.specs.Answer.{accepted_request, change_refusal};
ghost use Rattle.media_rows.specs.Good.{Good};
ghost use Rattle.media_rows.specs.Moments.{is_moment};
ghost use Rattle.media_rows.specs.Refusals.{IsChange};
ghost use Rattle.media_rows.specs.Sound.{are_posts_good, is_good_command};
ghost use Rattle.core_parts.specs.Conditions.{IsReady};
ghost use Rattle.media_book.specs.Media.{media_of, serial_in};
ghost use Rattle.store_core.specs.Within.{MakesAnswer, given_making, made_by, next_apart};

use crate::made::{Made, created_unless, list_reply};
use core_parts::{Cut, ListPosted, Parts, good_is_ready};
use disk_trait::{Duplicate, Text};
use library_laws::{answers_apply, applied_is_sound};
use media_rows::{
    BookFault, Change, Deletion, Digest, Extent, FlowBody, Hook, Part, PostList, Reply, Want,
};
use std::alloc::Global;
use time_range::TimeRange;

/// The most segments that go at once.
pub(crate) const STEP_SIZE: u64 = 32;

/// A flow is put.
pub(crate) fn put_flow(
    alloc: Global,
    parts: &Parts,
    body: &FlowBody,
    now: u64,
) -> Result<Made, BookFault>
    requires ready { IsReady parts.now.library }
    ensures { MakesAnswer parts.now.library (commands.PutFlow body.now) now result }
{
    let there = parts.registry().catalog().flow(body.id).is_some();
    match parts.put_flow(alloc, body, now) {
        Ok(next) => {
            let flow = body.duplicate(alloc)?;
            Ok(Made::changed(
                created_unless(there),
                Change::PutFlow { moment: now, flow },
                next,
            ))
        }
        Err(fault) => Err(fault),
    }
}

/// A part of a flow is set or cleared.
pub(crate) fn set_flow(
    alloc: Global,
    parts: &Parts,
    flow: u128,
    part: &Part,
    now: u64,
) -> Result<Made, BookFault>
    requires ready { IsReady parts.now.library }
    ensures { MakesAnswer parts.now.library (commands.SetFlow flow part.now) now result }
{
    match parts.set_flow(alloc, flow, part, now) {
        Ok(next) => {
            let part = part.duplicate(alloc)?;
            Ok(Made::changed(
                Reply::Done,
                Change::SetFlow {
                    moment: now,
                    flow,
                    part,
                },
                next,
            ))
        }
        Err(fault) => Err(fault),
    }
}

/// A part of a source is set or cleared.
pub(crate) fn set_source(
    alloc: Global,
    parts: &Parts,
    source: u128,
    part: &Part,
    now: u64,
) -> Result<Made, BookFault>
    requires ready { IsReady parts.now.library }
    ensures { MakesAnswer parts.now.library (commands.SetSource source part.now) now result }
{
    match parts.set_source(alloc, source, part, now) {
        Ok(next) => {
            let part = part.duplicate(alloc)?;
            Ok(Made::changed(
                Reply::Done,
                Change::SetSource {
                    moment: now,
                    source,
                    part,
                },
                next,
            ))
        }
        Err(fault) => Err(fault),
    }
}

/// A flow goes at once with at most 32 segments. With more a request is made.
pub(crate) fn drop_flow(
    alloc: Global,
    parts: &Parts,
    flow: u128,
    now: u64,
) -> Result<Made, BookFault>
    requires ready { IsReady parts.now.library }
    ensures { MakesAnswer parts.now.library (commands.DropFlow flow) now result }
{
    if parts.media().flow_len(flow) > STEP_SIZE {
        let asked = Deletion {
            flow,
            range: TimeRange::eternity(),
            delete_flow: true,
        };
        return ask_delete(alloc, parts, &asked, now);
    }
    match parts.drop_flow(alloc, flow, now) {
        Ok(next) => Ok(Made::changed(Reply::Done, Change::DropFlow { moment: now, flow }, next)),
        Err(fault) => Err(fault),
    }
}

/// Objects are made for a flow.
pub(crate) fn allocate(
    alloc: Global,
    parts: &Parts,
    flow: u128,
    want: &Want,
    now: u64,
) -> Result<Made, BookFault>
    requires ready { IsReady parts.now.library }
    ensures { MakesAnswer parts.now.library (commands.Allocate flow want.now) now result }
{
    let ids = parts.wanted_ids(alloc, want)?;
    match parts.allocate_wanted(alloc, flow, want, ids.items(), now) {
        Ok(next) => {
            let objects = ids.duplicate(alloc)?;
            Ok(Made::changed(
                Reply::CreatedObjects(ids),
                Change::Allocate {
                    moment: now,
                    flow,
                    objects,
                },
                next,
            ))
        }
        Err(fault) => Err(fault),
    }
}

/// An object has its bytes at its least free place.
pub(crate) fn keep(
    alloc: Global,
    parts: &Parts,
    object: &Text,
    extent: Extent,
    digest: Digest,
    now: u64,
) -> Result<Made, BookFault>
    requires good { Good parts.now.library }
    requires place { IsTrue (is_good_command parts.now.library (commands.Keep object.now extent.start extent.length digest)) }
    requires moment { IsTrue (is_moment now) }
    ensures made { MakesAnswer parts.now.library
        (commands.Keep object.now extent.start extent.length digest) now result }
    ensures apart { IfOk result
        (λ made. next_apart made ≡ serial_in object.now (media_of parts.now.library)) }
{
    good_is_ready();
    answers_apply();
    applied_is_sound();
    match parts.store(alloc, object, extent, digest.kept(), now) {
        Ok(next) => {
            let change = Change::Store {
                moment: now,
                object: object.duplicate(alloc)?,
                start_block: extent.start,
                length: extent.length,
                digest: digest.kept(),
            };
            Ok(Made::changed(Reply::Created, change, next))
        }
        Err(fault) => Err(fault),
    }
}

/// Those segments of a post that can be kept come to a flow. The others are the reply.
pub(crate) fn add_segments(
    alloc: Global,
    parts: &Parts,
    flow: u128,
    posts: &PostList,
    now: u64,
) -> Result<Made, BookFault>
    requires ready { IsReady parts.now.library }
    requires bounded { IsTrue (are_posts_good posts.now.segments) }
    ensures { MakesAnswer parts.now.library (commands.AddSegments flow posts.now) now result }
{
    match parts.add_list(alloc, flow, posts.items(), now) {
        Ok(ListPosted { told, next }) => {
            let segments = PostList {
                single: false,
                segments: told.kept,
            };
            Ok(Made::changed(
                list_reply(told.failed),
                Change::AddSegments {
                    moment: now,
                    flow,
                    segments,
                },
                next,
            ))
        }
        Err(fault) => Err(fault),
    }
}

/// At most 32 segments that a range covers go at once. With more a request is made.
pub(crate) fn cut_segments(
    alloc: Global,
    parts: &Parts,
    flow: u128,
    range: &TimeRange,
    now: u64,
) -> Result<Made, BookFault>
    requires ready { IsReady parts.now.library }
    ensures { MakesAnswer parts.now.library (commands.CutSegments flow range.now) now result }
{
    match parts.cut(alloc, flow, range, now) {
        Ok(Cut::Nothing) => Ok(Made::unchanged(Reply::Done)),
        Ok(Cut::Gone(next)) => {
            let change = Change::CutSegments {
                moment: now,
                flow,
                range: *range,
            };
            Ok(Made::changed(Reply::Done, change, next))
        }
        Ok(Cut::Many) => {
            let asked = Deletion {
                flow,
                range: *range,
                delete_flow: false,
            };
            ask_delete(alloc, parts, &asked, now)
        }
        Err(fault) => Err(fault),
    }
}

/// A delete request is made, which is the reply.
fn ask_delete(alloc: Global, parts: &Parts, asked: &Deletion, now: u64) -> Result<Made, BookFault>
    requires ready { IsReady parts.now.library }
    ensures { IsChange (change_refusal parts.now.library asked.now.flow)
        (made_by parts.now.library (accepted_request parts.now.library asked.now now)) (given_making result) }
{
    let row = asked.row(parts.registry().next_serial(), now);
    match parts.ask_delete(alloc, asked, now) {
        Ok(next) => {
            let change = Change::AskDelete {
                moment: now,
                flow: asked.flow,
                range: asked.range,
                delete_flow: asked.delete_flow,
            };
            Ok(Made::changed(Reply::Accepted(row), change, next))
        }
        Err(fault) => Err(fault),
    }
}

/// A hook comes, in place of the one of its address.
pub(crate) fn put_hook(
    alloc: Global,
    parts: &Parts,
    hook: &Hook,
    now: u64,
) -> Result<Made, BookFault>
    requires ready { IsReady parts.now.library }
    ensures { MakesAnswer parts.now.library (commands.PutHook hook.now) now result }
{
    let there = parts
        .registry()
        .outbox()
        .find_hook(alloc, &hook.url)?
        .is_some();
    let next = parts.put_hook(alloc, hook)?;
    let hook = hook.duplicate(alloc)?;
    Ok(Made::changed(
        created_unless(there),
        Change::PutHook { moment: now, hook },
        next,
    ))
}

/// The hook of an address goes, where there is one.
pub(crate) fn drop_hook(
    alloc: Global,
    parts: &Parts,
    url: &Text,
    now: u64,
) -> Result<Made, BookFault>
    requires ready { IsReady parts.now.library }
    ensures { MakesAnswer parts.now.library (commands.DropHook url.now) now result }
{
    if parts.registry().outbox().find_hook(alloc, url)?.is_none() {
        return Ok(Made::unchanged(Reply::Done));
    }
    let next = parts.drop_hook(alloc, url)?;
    let url = url.duplicate(alloc)?;
    Ok(Made::changed(Reply::Done, Change::DropHook { moment: now, url }, next))
}
