//! Taking the body of a media PUT.
ghost use Rattle.std.specs.Prelude.{◌≡◌, ◌≤◌, ◌<◌, ◌+◌, ℕ, List, None, true, false, not, length, IfSome, IsFalse, OnOk, is_ok};
ghost use Rattle.std.specs.Result.{is_err};
ghost use Rattle.disk_trait.specs.Calls.{DiskCalls};
ghost use Rattle.http_wire.specs.Feeds.{left_of};
ghost use Rattle.http_wire.specs.declared.stage.FeedStage.TheVariants as stages;
ghost use Rattle.store_states.specs.Kept.{AgreesWith};
ghost use Rattle.store_writes.specs.Writes.{Keeps};
ghost use Rattle.media_store.specs.Puts.{HandsOn, IsPutOf, body_handed, plan_of};
ghost use Rattle.media_store.specs.Stores.{size_of};
ghost use Rattle.media_store.specs.declared.puts.TheConstants.{PIECE};
ghost use Rattle.tams_service.specs.Sites.{SiteCounts};
ghost use Rattle.tams_service.specs.Taking.{IsPutBegun, IsFilled, TakesBody, TakesNext, is_heard, is_taken_unfailed, piece_heard, piece_stored};
ghost use Rattle.tams_service.specs.declared.body.BodyTaken.TheVariants as taken;

use disk_trait::Failed;
use media_store::{Put, Store};
use request_hearing::{Body, Hearing};
use site_edge::Site;

/// How the body of a media PUT was taken.
#[derive(Clone, Copy, Debug, PartialEq, Eq)]
pub(crate) enum BodyTaken {
    /// All of it.
    Whole,
    /// The peer's bytes ended within it.
    Ended,
    /// A hearing failed.
    Unheard,
    /// A call of the disk failed, and the store is spent.
    Failed,
}

/// How a piece of the body was taken.
#[derive(Clone, Copy, Debug, PartialEq, Eq)]
enum PieceTaken {
    /// So many bytes of it.
    Of(u64),
    /// The peer's bytes ended.
    Ended,
    /// A hearing failed.
    Unheard,
    /// A call of the disk failed, and the store is spent.
    Failed,
}

/// Begins a put that was planned, hears the body of its request of so many bytes, in pieces of at most 65,536 bytes,
/// and hands each to the put; where there is none, the body is dropped. It takes no memory.
pub(crate) fn take_body<X: Site>(
    store: &mut Store,
    hearing: &mut Hearing,
    site: &mut X,
    put: Option<Put>,
    size: u64,
    room: &mut [u8],
) -> BodyTaken
    requires unspent { IsFalse store.old.spent }
    requires idle { store.old.put ≡ None }
    requires device { size_of store.old.kept ≤ (X.device site.old).size }
    requires under_way { (X.device site.old).link.under_way ≡ true }
    requires stage { hearing.old.stage ≡ stages.Media size }
    requires put { IfSome put (IsPutBegun store.old.kept size) }
    requires room { length room.old ≡ PIECE }
    ensures calls { SiteCounts (is_heard result) (is_taken_unfailed result) (X.device site.old) (X.device site.new) }
    ensures takes { TakesBody store.old.kept size hearing.old hearing.new store.new.put
        (X.device site.old) (X.device site.new) result }
    ensures filled { result ≡ taken.Whole → IfSome store.new.put (IsFilled store.old.kept size) }
    ensures plan { result ≡ taken.Whole → plan_of store.new.put ≡ plan_of put }

    // What is kept stays, also where a call fails, and at each moment a crash leaves its state.
    ensures keeps { (held : List (List ℕ)) → AgreesWith (X.device site.old) store.old.kept held
        → Keeps store.old.kept held (X.device site.old) (X.device site.new) }

    ensures kept { store.new.kept ≡ store.old.kept }
    ensures spent { store.new.spent ≡ not (is_taken_unfailed result) }
    ensures room { length room.new ≡ length room.old }
{
    begin(store, put);
    let mut left = size;
    'pieces: while 0 < left {
        match take_piece(store, hearing, site, room) {
            PieceTaken::Of(count) => left -= count,
            PieceTaken::Ended => return BodyTaken::Ended,
            PieceTaken::Unheard => return BodyTaken::Unheard,
            PieceTaken::Failed => return BodyTaken::Failed,
        }
    }
    BodyTaken::Whole
}

/// Begins a put that was planned, where there is one.
fn begin(store: &mut Store, put: Option<Put>)
    requires unspent { IsFalse store.old.spent }
    requires idle { store.old.put ≡ None }
    requires of_store { IfSome put (IsPutOf store.old.kept) }
    ensures put { store.new.put ≡ put }
    ensures kept { store.new.kept ≡ store.old.kept }
    ensures spent { store.new.spent ≡ false }
{
    if let Some(put) = put {
        store.put_begin(put);
    }
}

/// Hears a piece of the body into `room`, and hands it to the put, where one is under way.
fn take_piece<X: Site>(
    store: &mut Store,
    hearing: &mut Hearing,
    site: &mut X,
    room: &mut [u8],
) -> PieceTaken
    requires unspent { IsFalse store.old.spent }
    requires device { size_of store.old.kept ≤ (X.device site.old).size }
    requires under_way { (X.device site.old).link.under_way ≡ true }
    requires left { 0 < left_of hearing.old.stage }
    requires inside { IfSome store.old.put (λ p. p.handed + left_of hearing.old.stage ≤ p.size) }
    requires room { length room.old ≡ PIECE }
    ensures calls { SiteCounts (piece_heard result) (piece_stored result)
        (X.device site.old) (X.device site.new) }
    ensures takes { TakesNext store.old.kept hearing.old hearing.new store.old.put store.new.put
        (X.device site.old) (X.device site.new) result }
    ensures keeps { (held : List (List ℕ)) → AgreesWith (X.device site.old) store.old.kept held
        → Keeps store.old.kept held (X.device site.old) (X.device site.new) }
    ensures kept { store.new.kept ≡ store.old.kept }
    ensures spent { store.new.spent ≡ not (piece_stored result) }
    ensures room { length room.new ≡ length room.old }
{
    match hearing.take_body(site, room) {
        Body::Piece(count) => match hand_on(store, site, &room[..count]) {
            Ok(()) => PieceTaken::Of(count as u64),
            Err(Failed) => PieceTaken::Failed,
        },
        Body::Ended => PieceTaken::Ended,
        Body::Unheard => PieceTaken::Unheard,
    }
}

/// Hands a piece to the put, where one is under way.
fn hand_on<X: Site>(store: &mut Store, site: &mut X, piece: &[u8]) -> Result<(), Failed>
    requires unspent { IsFalse store.old.spent }
    requires device { size_of store.old.kept ≤ (X.device site.old).size }
    requires inside { IfSome store.old.put (λ p. p.handed + length piece.now ≤ p.size) }
    requires short { length piece.now ≤ PIECE }
    ensures calls { DiskCalls (is_ok result) (X.device site.old) (X.device site.new) }
    ensures hands { OnOk result (HandsOn store.old.kept piece.now store.old.put store.new.put
        (X.device site.old) (X.device site.new)) }
    ensures handed { (X.device site.old).tells ≡ true → OnOk result ((X.device site.new).handed
        ≡ (X.device site.old).handed + body_handed (plan_of store.old.put) piece.now) }
    ensures keeps { (held : List (List ℕ)) → AgreesWith (X.device site.old) store.old.kept held
        → Keeps store.old.kept held (X.device site.old) (X.device site.new) }
    ensures kept { store.new.kept ≡ store.old.kept }
    ensures spent { store.new.spent ≡ is_err result }
{
    if store.has_put() {
        store.put_piece(site, piece)
    } else {
        Ok(())
    }
}
