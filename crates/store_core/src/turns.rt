//! What is prepared for a turn.
ghost use Rattle.std.specs.Prelude.{◌≡◌, IfErr, IfOk, IfSome, IsTrue, is_some, option_map};
ghost use Rattle.media_rows.specs.declared.reply.Reply.TheVariants.{Done};
ghost use Rattle.media_rows.specs.Answer.{changed};
ghost use Rattle.media_rows.specs.Apply.{turn};
ghost use Rattle.media_rows.specs.Moments.{is_moment};
ghost use Rattle.core_parts.specs.Conditions.{IsReady};
ghost use Rattle.store_core.specs.Prepared.{AppliesTo, preparation, turned};
ghost use Rattle.store_core.specs.Within.{made_by, making};

use crate::made::Made;
use crate::{Core, Prepared};
use core_parts::{Parts, good_is_ready};
use disk_trait::Memory;
use library_laws::{good_is_tested, turns_apply};
use media_rows::{Change, Reply};
use std::alloc::Global;

impl Core {
    /// A delete request is worked off by one step, or else objects that are due are swept; `None` exactly where there is
    /// nothing to do, which is found without memory. The reply is `Done`. Whether the change fits is left to the caller.
    pub fn prepare_turn(&self, alloc: Global, now: u64) -> Result<Option<Prepared>, Memory>
        requires moment { IsTrue (is_moment now) }
        ensures prepared { IfOk result (λ prepared. option_map preparation prepared
            ≡ turned self.now.library now) }
        ensures due { IfErr result (λ _. IsTrue (is_some (turn self.now.library now))) }
        ensures applies { IfOk result (λ prepared. IfSome prepared
            (λ p. AppliesTo self.now.library (preparation p))) }
    {
        good_is_ready();
        turns_apply();
        good_is_tested();
        match made_in_turn(alloc, &self.parts, now) {
            Ok(None) => Ok(None),
            Ok(Some(made)) => Ok(Some(self.prepared(alloc, made)?)),
            Err(fault) => Err(fault),
        }
    }
}

/// What a turn makes of a library, where something is due.
fn made_in_turn(alloc: Global, parts: &Parts, now: u64) -> Result<Option<Made>, Memory>
    requires ready { IsReady parts.now.library }
    ensures made { IfOk result (λ made. option_map making made
        ≡ option_map (λ change. made_by parts.now.library (changed Done change)) (turn parts.now.library now)) }
    ensures due { IfErr result (λ _. IsTrue (is_some (turn parts.now.library now))) }
{
    if parts.registry().requests().first_due().is_some() {
        let next = parts.delete_step(alloc, now)?;
        let change = Change::DeleteStep { moment: now };
        return Ok(Some(Made::changed(Reply::Done, change, next)));
    }
    if parts.is_sweep_due(now) {
        let next = parts.sweep(alloc, now)?;
        let change = Change::SweepStep { moment: now };
        return Ok(Some(Made::changed(Reply::Done, change, next)));
    }
    Ok(None)
}
