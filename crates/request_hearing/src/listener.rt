//! A feed with room for a piece of what is heard.
ghost use Rattle.std.specs.Prelude.{◌≡◌, ◌<◌, ◌≤◌, ◌↔◌, [], false, is_ok, length, true, IfOk, IsTrue};
ghost use Rattle.http_wire.specs.Agreeing.{MayTurn};
ghost use Rattle.http_wire.specs.Feeds.{IsInterimDue, IsPlace, Turns, feed_room, kept_count, left_of, new_feed, span_bytes};
ghost use Rattle.request_hearing.specs.Hearing.{HearsAndSays, HearsBody, HearsRequest, IsWaiting};
ghost use Rattle.request_hearing.specs.Turning.{FollowsTurn, HearsMore, IsDueBy, TurnsTo, end_of, heard_bytes, heard_end, hearing_end, one_part, unsaid_of};

use crate::heard::{Body, Heard, Turn};
use crate::interim::{is_missing, say_interim};
use disk_trait::Memory;
use http_wire::{Feed, FeedSpan, FeedStep};
use site_edge::{LinkFailed, Site};
use std::alloc::Global;
use std::marker::Model;

/// At most so many bytes are heard at once.
const PIECE: usize = 65_536;

/// A feed with room for a piece of what is heard. It takes all its memory at once.
#[derive(Drop)]
pub struct Hearing {
    feed: Feed,
    buffer: Vec<u8>,
}

impl Model for Hearing {
    ghost use Rattle.std.specs.Prelude.{◌≡◌, vec_len};
    ghost use Rattle.http_wire.specs.Feeds.{Fed};
    ghost use Rattle.request_hearing.specs.declared.listener.TheConstants.{PIECE};

    ghost Value = { Fed };

    ghost view = { λ h. h.feed };

    ghost invariant = { λ h. vec_len h.buffer ≡ PIECE };
}

impl Hearing {
    /// What hears a new connection. All of its memory is taken here.
    pub fn new(alloc: Global) -> Result<Hearing, Memory>
        ensures { IfOk result (λ hearing. hearing ≡ new_feed) }
    {
        let feed = Feed::new(alloc)?;
        let buffer = vec![in alloc; 0u8; PIECE]?;
        Ok(Hearing { feed, buffer })
    }

    /// Begins the next connection. It takes no memory.
    pub fn restart(&mut self)
        ensures { self.new ≡ new_feed }
    {
        self.feed.restart();
    }

    /// The bytes at a place of the last head.
    pub fn bytes(&self, span: FeedSpan) -> &[u8]
        requires { IsPlace self.now span }
        ensures { result.now ≡ span_bytes self.now span }
    {
        self.feed.bytes(span)
    }

    /// Hears more of the peer's bytes behind the unread ones, and says how many; 0 at their end.
    fn hear<X: Site>(&mut self, site: &mut X) -> Result<usize, LinkFailed>
        requires room { kept_count self.old < feed_room }
        requires under_way { (X.device site.old).link.under_way ≡ true }
        ensures { HearsMore result self.old self.new (X.device site.old) (X.device site.new) }
    {
        let room = self.feed.room().min(PIECE);
        let count = hear_into(site, self.buffer.as_mut_slice(), room)?;
        let (heard, _) = self.buffer.as_slice().split_at(count);
        self.feed.push(heard);
        Ok(count)
    }

    /// Hears the next request of the connection that is under way, and says its interim response where one
    /// is due. All media bytes were handed on, and no head so far ends the connection. It takes no memory.
    pub fn hear_request<X: Site>(&mut self, site: &mut X) -> Heard
        requires may { MayTurn self.old }
        requires under_way { (X.device site.old).link.under_way ≡ true }
        ensures { HearsRequest self.old self.new (X.device site.old) (X.device site.new) result }
    {
        let mut said = false;
        for _ in 0..u64::MAX {
            match self.take_turn(site, said) {
                Turn::Waits(by_then) => said = by_then,
                Turn::Done(heard) => return heard,
            }
        }
        unreachable!()
    }

    /// Hands on bytes of the body of the last media PUT: of those that are unread, or of more that are heard
    /// where none is. It takes no memory.
    pub fn take_body<X: Site>(&mut self, site: &mut X, out: &mut [u8]) -> Body
        requires left { 0 < left_of self.old.stage }
        requires some { 0 < length out.old }
        requires under_way { (X.device site.old).link.under_way ≡ true }
        ensures { HearsBody self.old self.new out.new (X.device site.old) (X.device site.new)
            result }
    {
        if self.feed.is_read() {
            self.hear_body(site, out)
        } else {
            Body::Piece(self.feed.take_body(out))
        }
    }

    /// Hears a piece where nothing is unread, at its place at once. What stands behind the body stays with the
    /// peer.
    fn hear_body<X: Site>(&mut self, site: &mut X, out: &mut [u8]) -> Body
        requires none { self.old.unread ≡ [] }
        requires left { 0 < left_of self.old.stage }
        requires some { 0 < length out.old }
        requires under_way { (X.device site.old).link.under_way ≡ true }
        ensures { HearsBody self.old self.new out.new (X.device site.old) (X.device site.new)
            result }
    {
        let room = self.feed.body_left().min(out.len() as u64) as usize;
        match hear_into(site, out, room) {
            Ok(0) => Body::Ended,
            Ok(count) => {
                self.feed.pass_body(count);
                Body::Piece(count)
            }
            Err(LinkFailed) => Body::Unheard,
        }
    }

    /// What the feed gives next, and whether an interim response is due to what stands there.
    fn next_step(&mut self) -> (FeedStep, bool)
        requires may { MayTurn self.old }
        ensures step { Turns self.old result.0 self.new }
        ensures due { IsTrue result.1 ↔ IsInterimDue self.old.unread }
    {
        let step = self.feed.next_request();
        let due = is_due(&self.feed, &step);
        (step, due)
    }

    /// Hears more where nothing whole stands in the bytes so far. Whether an interim response was due to
    /// them is known, and it was said.
    fn hear_more<X: Site>(&mut self, site: &mut X, due: bool) -> Turn
        requires waits { IsWaiting self.old.unread due self.old }
        requires may { MayTurn self.old }
        requires room { kept_count self.old < feed_room }
        requires under_way { (X.device site.old).link.under_way ≡ true }
        ensures { FollowsTurn false due self.old.requests self.old.unread self.new
            (X.device site.old) (X.device site.new) result }
    {
        match self.hear(site) {
            Ok(0) => Turn::Done(self.end()),
            Ok(_) => Turn::Waits(due),
            Err(LinkFailed) => Turn::Done(Heard::Unheard),
        }
    }

    /// How the peer's bytes ended where nothing whole stands in them.
    fn end(&self) -> Heard
        ensures { result ≡ end_of self.now.unread }
    {
        if self.feed.is_read() {
            Heard::Ended
        } else {
            Heard::Cut
        }
    }

    /// One turn: what the feed gives, behind the interim response where it is due and wasn't said yet, or
    /// more bytes are heard.
    fn take_turn<X: Site>(&mut self, site: &mut X, said: bool) -> Turn
        requires may { MayTurn self.old }
        requires due { said ≡ true → IsInterimDue self.old.unread }
        requires under_way { (X.device site.old).link.under_way ≡ true }
        ensures { TurnsTo said self.old.requests self.old.unread self.new
            (X.device site.old) (X.device site.new) result }
    {
        let (step, due) = self.next_step();
        match say_interim(site, is_missing(due, said)) {
            Err(LinkFailed) => Turn::Done(unsaid(&step)),
            Ok(()) => match step {
                FeedStep::More => self.hear_more(site, due),
                FeedStep::Head(head) => Turn::Done(Heard::Media(head)),
                FeedStep::Whole(head) => Turn::Done(Heard::Whole(head)),
                FeedStep::Refused(fault) => Turn::Done(Heard::Refused(fault)),
            },
        }
    }
}

/// Whether an interim response is due to the request of which a feed gave this step.
fn is_due(feed: &Feed, step: &FeedStep) -> bool
    ensures { IsDueBy feed.now step.now result }
{
    match step {
        FeedStep::More => feed.interim_due(),
        FeedStep::Head(head) => head.wants_interim,
        FeedStep::Whole(head) => head.wants_interim,
        FeedStep::Refused(_) => feed.interim_due(),
    }
}

/// What a step comes to where saying the interim response failed.
fn unsaid(step: &FeedStep) -> Heard
    ensures { result ≡ unsaid_of step.now }
{
    match step {
        FeedStep::Head(_) => Heard::MediaUnsaid,
        FeedStep::More => Heard::Unsaid,
        FeedStep::Whole(_) => Heard::Unsaid,
        FeedStep::Refused(_) => Heard::Unsaid,
    }
}

/// Hears some bytes of the peer, at most so many, into the front of the buffer, and says how many; 0 at the
/// end of its bytes.
fn hear_into<X: Site>(site: &mut X, buffer: &mut [u8], room: usize) -> Result<usize, LinkFailed>
    requires some { 0 < room }
    requires within { room ≤ length buffer.old }
    requires under_way { (X.device site.old).link.under_way ≡ true }
    ensures len { length buffer.new ≡ length buffer.old }
    ensures few { IfOk result (λ count. count ≤ room) }
    ensures hears { HearsAndSays (one_part (hearing_end result)) (heard_bytes result buffer.new) false
        true (is_ok result) (heard_end result) (X.device site.old) (X.device site.new) }
{
    let (free, _) = buffer.split_at_mut(room);
    site.hear(free)
}
