//! What is prepared for a command.
ghost use Rattle.std.specs.Prelude.{◌≡◌, IfOk, IfSome, IsTrue, Some, is_some};
ghost use Rattle.media_rows.specs.Answer.{answer, shown_refusal, shown_reply};
ghost use Rattle.media_rows.specs.Good.{Good};
ghost use Rattle.media_rows.specs.Moments.{is_moment};
ghost use Rattle.media_rows.specs.Refusals.{IsChange};
ghost use Rattle.media_rows.specs.Sound.{is_good_command};
ghost use Rattle.media_rows.specs.Views.{asked};
ghost use Rattle.core_parts.specs.Parts.{library_digested};
ghost use Rattle.store_core.specs.Prepared.{AppliesTo, HoldsStored, IsGiven, StoresDigested, given_preparation, preparation, prepared_digested, prepared_of};
ghost use Rattle.store_core.specs.Within.{KeepsApart, MakesAnswer, given_making, making, making_none, next_apart, prepared_step};

use crate::Core;
use crate::commands::{
    add_segments, allocate, cut_segments, drop_flow, drop_hook, keep, put_flow, put_hook, set_flow,
    set_source,
};
use crate::made::{ChangeStep, Made};
use core_parts::{Parts, good_is_ready};
use core_queries::query;
use disk_trait::Memory;
use library_laws::{answers_apply, good_is_tested};
use media_rows::{BookFault, Change, Command, Digest, Extent, Query, Reply};
use std::alloc::Global;

/// What a command or a turn makes of a library: the library afterwards, the change, where there is one, and the reply.
/// `past` says that the change would bring the next serial past its last value; then the library is the one of before.
#[derive(Drop)]
pub struct Prepared {
    pub core: Core,
    pub change: Option<Change>,
    pub reply: Reply,
    pub past: bool,
}

impl Prepared {
    /// Sets the digest of the object that the change stores, in the change and in the library afterwards. It takes no
    /// memory.
    pub fn set_digest(&mut self, digest: Digest)
        requires apart { IsTrue (is_some self.old.core.apart) }
        ensures digested { self.new ≡ prepared_digested digest self.old }

        // The change with this digest applies as the one that was prepared does.
        ensures applies { StoresDigested self.old self.new }
    {
        good_is_tested();
        self.core.set_digest(digest);
        if let Some(Change::Store { digest: kept, .. }) = &mut self.change {
            *kept = Some(digest);
        }
    }
}

impl Core {
    /// Sets the digest of the object whose row is held apart. It takes no memory.
    fn set_digest(&mut self, digest: Digest)
        requires apart { IsTrue (is_some self.old.apart) }
        ensures { self.new ≡ library_digested digest self.old }
    {
        self.parts.set_digest(digest);
    }

    /// What the library answers to a command at a moment, in seconds since 1970-01-01T00:00:00Z: a refusal, or what the
    /// command makes of it, with its reply. A question makes nothing: its reply is what it shows. The library itself
    /// stays. An object that is to be kept has its least free place. The library after a change that stores an object holds the
    /// object's row apart.
    pub fn prepare(&self, alloc: Global, command: &Command, now: u64) -> Result<Prepared, BookFault>
        requires good { IsTrue (is_good_command self.now.library command.now) }
        requires moment { IsTrue (is_moment now) }
        ensures prepared { IsGiven
            (prepared_of self.now.library (answer self.now.library command.now now))
            (given_preparation result) }
        ensures applies { IfOk result
            (λ prepared. AppliesTo self.now.library (preparation prepared)) }
        ensures apart { IfOk result (HoldsStored self.now.library) }
    {
        answers_apply();
        good_is_tested();
        match made(alloc, &self.parts, command, now) {
            Ok(made) => Ok(self.prepared(alloc, made)?),
            Err(fault) => Err(fault),
        }
    }

    /// What was made of the library, as it is prepared.
    pub(crate) fn prepared(&self, alloc: Global, made: Made) -> Result<Prepared, Memory>
        requires good { IfSome (making made).step (λ step. IfSome step.next Good) }
        ensures prepared { IfOk result (λ prepared. preparation prepared
            ≡ prepared_step self.now.library (making made).reply (making made).step) }
        ensures apart { IfOk result (λ prepared. IfSome (next_apart made)
            (λ serial. prepared.core.apart ≡ Some serial)) }
    {
        let Made { reply, step } = made;
        let Some(step) = step else {
            return Ok(Prepared {
                core: self.share(alloc)?,
                change: None,
                reply,
                past: false,
            });
        };
        let ChangeStep { change, next } = step;
        let past = next.is_none();
        let core = match next {
            None => self.share(alloc)?,
            Some(parts) => Core { parts },
        };
        Ok(Prepared {
            core,
            change: Some(change),
            reply,
            past,
        })
    }
}

/// What a command makes of a library.
fn made(alloc: Global, parts: &Parts, command: &Command, now: u64) -> Result<Made, BookFault>
    requires library { Good parts.now.library }
    requires good { IsTrue (is_good_command parts.now.library command.now) }
    requires moment { IsTrue (is_moment now) }
    ensures answer { MakesAnswer parts.now.library command.now now result }
    ensures apart { KeepsApart parts.now.library command.now result }
{
    good_is_ready();
    match command {
        Command::PutFlow(body) => put_flow(alloc, parts, body, now),
        Command::SetFlow(flow, part) => set_flow(alloc, parts, *flow, part, now),
        Command::SetSource(source, part) => set_source(alloc, parts, *source, part, now),
        Command::DropFlow(flow) => drop_flow(alloc, parts, *flow, now),
        Command::Allocate(flow, want) => allocate(alloc, parts, *flow, want, now),
        Command::Keep {
            object,
            start_block,
            length,
            digest,
        } => {
            let extent = Extent {
                start: *start_block,
                length: *length,
            };
            keep(alloc, parts, object, extent, *digest, now)
        }
        Command::AddSegments(flow, posts) => add_segments(alloc, parts, *flow, posts, now),
        Command::CutSegments(flow, range) => cut_segments(alloc, parts, *flow, range, now),
        Command::PutHook(hook) => put_hook(alloc, parts, hook, now),
        Command::DropHook(url) => drop_hook(alloc, parts, url, now),
        Command::Ask(question) => shown(alloc, parts, question),
    }
}

/// The reply to a question, which makes nothing.
fn shown(alloc: Global, parts: &Parts, question: &Query) -> Result<Made, BookFault>
    ensures { IsChange (shown_refusal (asked parts.now.library question.now))
        (making_none (shown_reply (asked parts.now.library question.now)))
        (given_making result) }
{
    Ok(Made::unchanged(query(alloc, parts, question)?))
}
