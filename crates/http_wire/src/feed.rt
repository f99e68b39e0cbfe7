//! A feed cuts the bytes of a connection into requests, in whatever pieces they come.
ghost use Rattle.std.specs.Prelude.{◌≡◌, ◌-◌, ◌+◌, ◌++◌, ◌↔◌, ◌≤◌, [], IfOk, IsFalse, IsTrue, drop, length, min, take};
ghost use Rattle.http_wire.specs.Feeds.{StepsTo, IsInterimDue, IsPlace, Turns, span_bytes, feed_room, handed_on, heard, is_last_request, kept_count, left_of, new_feed, passed_by};
ghost use Rattle.http_wire.specs.Heads.{more};
ghost use Rattle.http_wire.specs.Requests.{IsNext};
ghost use Rattle.http_wire.specs.Within.Seeing.{ShowsHead, KnowsHead};

use crate::framing::BODY_ROOM;
use crate::front::{NextFound, find_next, is_short};
use crate::head::{FeedSpan, FoundHead};
use crate::kept::{HeldBytes, KEPT_ROOM};
use crate::lines::{LinePlace, front, part};
use crate::seek::{HeadFound, Seen, seek};
use crate::stage::{FeedStage, FeedStep, Head};
use disk_trait::Memory;
use std::alloc::Global;
use std::marker::Model;

/// A connection ends behind so many requests.
const MAX_REQUESTS: u64 = 1_000_000;

/// No bytes.
const NO_PLACE: FeedSpan = FeedSpan {
    start: 0,
    length: 0,
};

/// Nothing is known of the unread bytes.
const UNSEEN: Seen = Seen::Seeking(LinePlace::Before, 0);

/// The bytes of one connection that were heard and not yet handed on. Its memory is taken at once, by `new`.
#[derive(Drop)]
pub struct Feed {
    kept: HeldBytes,
    /// The data of a chunked body.
    body: Vec<u8>,
    stage: FeedStage,
    requests: u64,
    ended: bool,
    /// What is known of the unread bytes.
    seen: Seen,
}

impl Model for Feed {
    ghost use Rattle.std.specs.Prelude.{◌<◌, ◌≤◌, IsFalse, length};
    ghost use Rattle.std.specs.Vec.{vec_capacity};
    ghost use Rattle.http_wire.specs.Feeds.{Fed, max_requests};
    ghost use Rattle.http_wire.specs.Framing.{max_body};
    ghost use Rattle.http_wire.specs.Within.Seeing.{IsSeen};

    ghost Value = { Fed };

    ghost view = { λ f. record {
      last = f.kept.last;
      unread = f.kept.unread;
      body = f.body.items;
      stage = f.stage;
      requests = f.requests;
      ended = f.ended;
    } };

    ghost invariant = { λ f. record {
      known : IsSeen f.kept.unread f.body.items f.seen;
      room : max_body ≤ vec_capacity f.body;
      count : IsFalse f.ended → f.requests < max_requests;
    } };
}

impl Feed {
    /// A feed of a new connection. All of its memory is taken here.
    pub fn new(alloc: Global) -> Result<Feed, Memory>
        ensures { IfOk result (λ feed. feed ≡ new_feed) }
    {
        let kept = HeldBytes::new(alloc)?;
        let body = Vec::with_capacity(alloc, BODY_ROOM)?;
        Ok(Feed {
            kept,
            body,
            stage: FeedStage::Open,
            requests: 0,
            ended: false,
            seen: UNSEEN,
        })
    }

    /// Makes the feed new for the next connection. It takes no memory.
    pub fn restart(&mut self)
        ensures { self.new ≡ new_feed }
    {
        self.kept.clear();
        self.body.clear();
        self.stage = FeedStage::Open;
        self.requests = 0;
        self.ended = false;
        self.seen = UNSEEN;
    }

    /// How many bytes more it takes.
    pub fn room(&self) -> usize
        ensures { result ≡ feed_room - kept_count self.now }
    {
        KEPT_ROOM - self.kept.len()
    }

    /// Whether no byte is kept that wasn't given yet.
    pub fn is_read(&self) -> bool
        ensures { IsTrue result ↔ (self.now.unread ≡ []) }
    {
        matches!(self.kept.unread(), [])
    }

    /// Takes the first bytes of a piece for which there is room, and says how many. It takes no memory.
    pub fn push(&mut self, piece: &[u8]) -> usize
        ensures count { result ≡ min (length piece.now) (feed_room - kept_count self.old) }
        ensures heard { self.new ≡ heard self.old (take result piece.now) }
    {
        let count = piece.len().min(KEPT_ROOM - self.kept.len());
        self.kept.push(front(piece, count));
        count
    }

    /// The next request, the head of the next media PUT, or a refusal of the wire, where one stands in the
    /// bytes so far. It takes no memory.
    pub fn next_request(&mut self) -> FeedStep
        requires handed_on { left_of self.old.stage ≡ 0 }
        requires goes_on { IsFalse self.old.ended }
        ensures { StepsTo self.old result self.new }
    {
        if let FeedStage::Failed(fault) = self.stage {
            return FeedStep::Refused(fault);
        }
        if self.lacks_bytes() {
            self.kept.hold(0);
            self.stage = FeedStage::Open;
            return FeedStep::More;
        }
        self.read_next()
    }

    /// Whether the body that is under way is known to lack bytes, whatever they are.
    fn lacks_bytes(&self) -> bool
        ensures { IsTrue result → IsNext self.now.unread more }
    {
        match &self.seen {
            Seen::Seeking(_, _) => false,
            Seen::Found(found, progress) => is_short(self.kept.unread(), found, progress),
        }
    }

    /// The same as `next_request`, where nothing was refused.
    fn read_next(&mut self) -> FeedStep
        requires goes_on { IsFalse self.old.ended }
        ensures { Turns self.old result self.new }
    {
        let next = find_next(self.kept.unread(), self.seen, &mut self.body);
        self.seen = UNSEEN;
        self.stage = FeedStage::Open;
        match next {
            NextFound::More(seen) => {
                self.kept.hold(0);
                self.seen = seen;
                FeedStep::More
            }
            NextFound::Refused(fault) => {
                self.kept.hold(0);
                self.stage = FeedStage::Failed(fault);
                FeedStep::Refused(fault)
            }
            NextFound::Opened(found, size) => {
                self.kept.hold(found.length);
                self.stage = FeedStage::Media(size);
                self.requests += 1;
                let head = show(&found, NO_PLACE, size, self.requests);
                self.ended = head.ends;
                FeedStep::Head(head)
            }
            NextFound::Plain(found, size) => {
                self.kept.hold(found.length + size);
                self.requests += 1;
                let head = show_plain(&found, size, self.requests);
                self.ended = head.ends;
                FeedStep::Whole(head)
            }
            NextFound::Decoded(found, size) => {
                self.kept.hold(found.length + size);
                self.requests += 1;
                let head = show_decoded(&found, self.body.len(), self.requests);
                self.ended = head.ends;
                FeedStep::Whole(head)
            }
        }
    }

    /// The bytes at a place of the last head.
    pub fn bytes(&self, span: FeedSpan) -> &[u8]
        requires { IsPlace self.now span }
        ensures { result.now ≡ span_bytes self.now span }
    {
        if span.start < KEPT_ROOM {
            part(self.kept.last(), span.start, span.length)
        } else {
            part(&self.body, span.start - KEPT_ROOM, span.length)
        }
    }

    /// Hands on body bytes of the last media PUT, and says how many. It takes no memory.
    pub fn take_body(&mut self, out: &mut [u8]) -> usize
        ensures count { result
            ≡ min (length out.old) (min (length self.old.unread) (left_of self.old.stage)) }
        ensures out { out.new ≡ take result self.old.unread ++ drop result out.old }
        ensures rest { self.new ≡ handed_on self.old result }
    {
        let FeedStage::Media(left) = self.stage else {
            return 0;
        };
        let count = least(out.len(), self.kept.unread().len(), left);
        write_front(out, front(self.kept.unread(), count));
        if count > 0 {
            self.kept.skip(count);
            self.seen = UNSEEN;
        }
        self.stage = FeedStage::Media(left - count as u64);
        count
    }

    /// How many body bytes of the last media PUT weren't handed on yet.
    pub fn body_left(&self) -> u64
        ensures { result ≡ left_of self.now.stage }
    {
        match self.stage {
            FeedStage::Media(left) => left,
            FeedStage::Open => 0,
            FeedStage::Failed(_) => 0,
        }
    }

    /// Counts body bytes of the last media PUT as handed on, which its caller had from the peer by itself,
    /// where no byte is unread. It takes no memory.
    pub fn pass_body(&mut self, count: usize)
        requires none { self.old.unread ≡ [] }
        requires left { count ≤ left_of self.old.stage }
        ensures { self.new ≡ passed_by self.old count }
    {
        if let FeedStage::Media(left) = self.stage {
            self.stage = FeedStage::Media(left - count as u64);
        }
    }

    /// Whether the head at the front of the bytes that weren't given yet is whole, isn't refused, and an
    /// interim response is due to it. To be asked after `More` or `Refused`. It takes no memory.
    pub fn interim_due(&self) -> bool
        ensures { IsTrue result ↔ IsInterimDue self.now.unread }
    {
        is_interim_due(self.kept.unread(), self.seen)
    }
}

/// The least of three numbers.
fn least(first: usize, second: usize, third: u64) -> usize
    ensures { result ≡ min first (min second third) }
{
    let both = first.min(second);
    if third < both as u64 {
        third as usize
    } else {
        both
    }
}

/// Writes bytes over the first ones.
fn write_front(out: &mut [u8], bytes: &[u8])
    requires { length bytes.now ≤ length out.old }
    ensures { out.new ≡ bytes.now ++ drop (length bytes.now) out.old }
{
    out[..bytes.len()].copy_from_slice(bytes);
}

/// The head of the so many-th request, as it is shown.
fn show(found: &FoundHead, body: FeedSpan, length: u64, number: u64) -> Head
    ensures { ShowsHead found.now body length number result }
{
    Head {
        method: found.method,
        target: found.target,
        body,
        length,
        wants_interim: found.wants_interim,
        ends: is_last(found.closes, number),
    }
}

/// The same, with a body of so many bytes behind the head.
fn show_plain(found: &FoundHead, size: usize, number: u64) -> Head
    ensures { ShowsHead found.now (record { start = found.now.length; length = size }) size number
        result }
{
    let place = FeedSpan {
        start: found.length,
        length: size,
    };
    show(found, place, size as u64, number)
}

/// The same, with a decoded body of so many bytes.
fn show_decoded(found: &FoundHead, size: usize, number: u64) -> Head
    ensures { ShowsHead found.now (record { start = feed_room; length = size }) size number result }
{
    let place = FeedSpan {
        start: KEPT_ROOM,
        length: size,
    };
    show(found, place, size as u64, number)
}

/// Whether the connection ends behind the so many-th request.
fn is_last(closes: bool, number: u64) -> bool
    ensures { result ≡ is_last_request closes number }
{
    closes || number == MAX_REQUESTS
}

/// Whether an interim response is due, where something is known of the bytes.
fn is_interim_due(unread: &[u8], seen: Seen) -> bool
    requires { KnowsHead unread.now seen }
    ensures { IsTrue result ↔ IsInterimDue unread.now }
{
    match seen {
        Seen::Found(found, _) => found.wants_interim,
        Seen::Seeking(place, at) => match seek(unread, place, at) {
            HeadFound::Whole(found) => found.wants_interim,
            HeadFound::More(_, _) => false,
            HeadFound::Refused => false,
        },
    }
}
