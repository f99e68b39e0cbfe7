//! Requests that came whole, planned by what a probe tells of the bytes that are asked for.
ghost use Rattle.std.specs.Prelude.{◌≡◌, ◌≢◌, ◌≤◌, ℕ, List, None, true, IfOk, IfSome, IsFalse, IsTrue, Ok, is_ok};
ghost use Rattle.std.specs.Result.{is_err};
ghost use Rattle.std.specs.Str.{is_utf8};
ghost use Rattle.disk_trait.specs.Calls.{DiskReads};
ghost use Rattle.media_rows.specs.Moments.{is_moment};
ghost use Rattle.store_states.specs.Kept.{AgreesWith, kept_state};
ghost use Rattle.store_plans.specs.Plans.{MakesStep};
ghost use Rattle.media_store.specs.Changes.{CanCommit};
ghost use Rattle.media_store.specs.Faults.{is_disk, not_disk_fault};
ghost use Rattle.media_store.specs.Pieces.{IsExtent};
ghost use Rattle.media_store.specs.Stores.{archive_of, size_of};
ghost use Rattle.tams_http.specs.Asked.{ask_of};
ghost use Rattle.tams_http.specs.declared.ask.Ask.TheVariants.{PutMedia};
ghost use Rattle.tams_machine.specs.Answers.{journal_of_state, outcome_of};
ghost use Rattle.tams_machine.specs.Requests.{TamsRequest};
ghost use Rattle.tams_answers.specs.Answers.{AnswersRequest, IsSent, ProbeTells, parts_of};

use disk_trait::{Disk, Failed, Text};
use media_store::{Probe, Store, StoreFault};
use std::alloc::Global;
use tams_answers::{Answer, Asked, Request, plan_answer};
use tams_http::Routes;

/// Plans the answer to a request that came whole, at a moment in seconds since 1970-01-01T00:00:00Z. Where it asks
/// for the bytes of a stored object, they are read first, and the answer is by what they are.
pub(crate) fn plan_whole<D: Disk>(
    alloc: Global,
    routes: &Routes,
    base: &Text,
    store: &mut Store,
    disk: &mut D,
    request: &Request<'_>,
    now: u64,
) -> Result<Answer, StoreFault>
    requires unspent { IsFalse store.old.spent }
    requires device { size_of store.old.kept ≤ (D.device disk.old).size }
    requires routes { routes.now ≡ store.old.kept.library.id }
    requires base { IsTrue (is_utf8 base.now) }
    requires moment { IsTrue (is_moment now) }
    requires no_put { (object : List ℕ) → ask_of routes.now request.now.method
        request.now.target.now request.now.body.now ≢ Ok (PutMedia object) }
    ensures reads { DiskReads (not_disk_fault result) (D.device disk.old) (D.device disk.new) }
    ensures keeps { (held : List (List ℕ)) → AgreesWith (D.device disk.old) store.old.kept held
        → AgreesWith (D.device disk.new) store.old.kept held }
    ensures kept { store.new.kept ≡ store.old.kept }
    ensures put { store.new.put ≡ store.old.put }
    ensures spent { store.new.spent ≡ is_disk result }
    ensures answers { (D.device disk.old).shows ≡ true → IfOk result (λ answer. (held : List (List ℕ))
        (r : TamsRequest) → AgreesWith (D.device disk.old) store.old.kept held
        → IsSent (parts_of request.now) r
        → AnswersRequest base.now (kept_state store.old.kept held) r now answer) }
    ensures step { IfOk result (λ answer. (held : List (List ℕ)) (r : TamsRequest)
        → IsSent (parts_of request.now) r
        → MakesStep (journal_of_state (kept_state store.old.kept held))
        (outcome_of (kept_state store.old.kept held) r now).change answer.planned) }
    ensures ready { IfOk result (λ answer. CanCommit store.old.kept answer.planned) }
    ensures media { IfOk result (λ answer. IfSome answer.media
        (λ extent. IsExtent store.old.kept.library extent × (answer.planned.frame ≡ None))) }
{
    let asked = Asked::of(alloc, routes, request)?;
    let probe = probe_asked(store, disk, &asked)?;
    let answer = plan_answer(alloc, routes, base, store, request, asked, probe, now)?;
    Ok(answer)
}

/// What a probe tells of the object whose bytes are asked for, where it is stored. It takes no memory.
fn probe_asked<D: Disk>(
    store: &mut Store,
    disk: &mut D,
    asked: &Asked,
) -> Result<Option<Probe>, Failed>
    requires unspent { IsFalse store.old.spent }
    requires device { size_of store.old.kept ≤ (D.device disk.old).size }
    ensures tells { (D.device disk.old).shows ≡ true → IfOk result (λ probe. (held : List (List ℕ))
        → AgreesWith (D.device disk.old) store.old.kept held
        → ProbeTells (archive_of store.old.kept held) asked.now.ask probe) }
    ensures reads { DiskReads (is_ok result) (D.device disk.old) (D.device disk.new) }
    ensures keeps { (held : List (List ℕ)) → AgreesWith (D.device disk.old) store.old.kept held
        → AgreesWith (D.device disk.new) store.old.kept held }
    ensures kept { store.new.kept ≡ store.old.kept }
    ensures put { store.new.put ≡ store.old.put }
    ensures spent { store.new.spent ≡ is_err result }
{
    let Some(object) = asked.media() else {
        return Ok(None);
    };
    if store.extent_of(object).is_none() {
        return Ok(None);
    }
    let probe = store.probe(disk, object)?;
    Ok(Some(probe))
}
