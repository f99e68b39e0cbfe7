//! Saying an answer.
ghost use Rattle.std.specs.Prelude.{◌≡◌, ◌≤◌, ◌+◌, ℕ, List, None, true, not, length, IfSome, IsFalse};
ghost use Rattle.disk_trait.specs.Calls.{bytes_at};
ghost use Rattle.object_blobs.specs.Extents.{extent_bytes};
ghost use Rattle.store_states.specs.Kept.{AgreesWith};
ghost use Rattle.store_states.specs.States.{media_start};
ghost use Rattle.media_store.specs.Pieces.{IsExtent};
ghost use Rattle.media_store.specs.Stores.{size_of};
ghost use Rattle.tams_answers.specs.Answers.{following_bytes};
ghost use Rattle.tams_service.specs.Saying.{Says, SaysAnswer, is_told_unfailed, is_linked, is_whole};
ghost use Rattle.tams_service.specs.Sites.{SiteCounts};

use disk_trait::Failed;
use media_rows::Extent;
use media_store::{PIECE, Store};
use site_edge::{LinkFailed, Site};

/// How an answer was said.
#[derive(Clone, Copy, Debug, PartialEq, Eq)]
pub(crate) enum AnswerTold {
    /// Whole.
    All,
    /// A saying failed.
    Unlinked,
    /// A read of the object's bytes failed, and the store is spent.
    Failed,
}

impl AnswerTold {
    /// Whether a read of the object's bytes failed.
    pub(crate) fn is_failed(self) -> bool
        ensures { result ≡ not (is_told_unfailed self) }
    {
        matches!(self, AnswerTold::Failed)
    }
}

/// Says a response, and behind it the bytes of an object where there are some, in pieces of at most 65,536 bytes
/// that are read into `room`. It takes no memory.
pub(crate) fn say_answer<X: Site>(
    store: &mut Store,
    site: &mut X,
    response: &[u8],
    media: Option<Extent>,
    room: &mut [u8],
) -> AnswerTold
    requires unspent { IsFalse store.old.spent }
    requires device { size_of store.old.kept ≤ (X.device site.old).size }
    requires under_way { (X.device site.old).link.under_way ≡ true }
    requires media { IfSome media (IsExtent store.old.kept.library) }
    requires room { length room.old ≡ PIECE }
    ensures calls { SiteCounts (is_linked result) (is_told_unfailed result) (X.device site.old) (X.device site.new) }
    ensures says { (X.device site.old).shows ≡ true → SaysAnswer (is_whole result) (is_linked result)
        response.now (following_bytes (media_start store.old.kept.journal.half) media
        (X.device site.old).seen) (X.device site.old) (X.device site.new) }
    ensures bare { media ≡ None → is_told_unfailed result ≡ true }
    ensures keeps { (held : List (List ℕ)) → AgreesWith (X.device site.old) store.old.kept held
        → AgreesWith (X.device site.new) store.old.kept held }
    ensures kept { store.new.kept ≡ store.old.kept }
    ensures put { store.new.put ≡ store.old.put }
    ensures spent { store.new.spent ≡ not (is_told_unfailed result) }
    ensures room { length room.new ≡ length room.old }
{
    match site.say(response) {
        Err(LinkFailed) => AnswerTold::Unlinked,
        Ok(()) => match media {
            None => AnswerTold::All,
            Some(extent) => say_object(store, site, extent, room),
        },
    }
}

/// Says the bytes of a stored object.
fn say_object<X: Site>(
    store: &mut Store,
    site: &mut X,
    extent: Extent,
    room: &mut [u8],
) -> AnswerTold
    requires unspent { IsFalse store.old.spent }
    requires device { size_of store.old.kept ≤ (X.device site.old).size }
    requires under_way { (X.device site.old).link.under_way ≡ true }
    requires stored { IsExtent store.old.kept.library extent }
    requires room { length room.old ≡ PIECE }
    ensures calls { SiteCounts (is_linked result) (is_told_unfailed result) (X.device site.old) (X.device site.new) }
    ensures says { (X.device site.old).shows ≡ true → Says (is_whole result) (is_linked result)
        (extent_bytes (media_start store.old.kept.journal.half) extent (X.device site.old).seen)
        (X.device site.old) (X.device site.new) }
    ensures keeps { (held : List (List ℕ)) → AgreesWith (X.device site.old) store.old.kept held
        → AgreesWith (X.device site.new) store.old.kept held }
    ensures kept { store.new.kept ≡ store.old.kept }
    ensures put { store.new.put ≡ store.old.put }
    ensures spent { store.new.spent ≡ not (is_told_unfailed result) }
    ensures room { length room.new ≡ length room.old }
{
    let mut at = 0;
    'pieces: while at < extent.length {
        let count = (extent.length - at).min(PIECE as u64);
        match say_piece(store, site, extent, at, &mut room[..count as usize]) {
            AnswerTold::All => at += count,
            AnswerTold::Unlinked => return AnswerTold::Unlinked,
            AnswerTold::Failed => return AnswerTold::Failed,
        }
    }
    AnswerTold::All
}

/// Says the bytes of a stored object from this offset in them on, as many as `out` has room for.
fn say_piece<X: Site>(
    store: &mut Store,
    site: &mut X,
    extent: Extent,
    at: u64,
    out: &mut [u8],
) -> AnswerTold
    requires unspent { IsFalse store.old.spent }
    requires device { size_of store.old.kept ≤ (X.device site.old).size }
    requires under_way { (X.device site.old).link.under_way ≡ true }
    requires stored { IsExtent store.old.kept.library extent }
    requires inside { at + length out.old ≤ extent.length }
    ensures calls { SiteCounts (is_linked result) (is_told_unfailed result) (X.device site.old) (X.device site.new) }
    ensures says { (X.device site.old).shows ≡ true → Says (is_whole result) (is_linked result)
        (bytes_at (extent_bytes (media_start store.old.kept.journal.half) extent (X.device site.old).seen)
        at (length out.old)) (X.device site.old) (X.device site.new) }
    ensures keeps { (held : List (List ℕ)) → AgreesWith (X.device site.old) store.old.kept held
        → AgreesWith (X.device site.new) store.old.kept held }
    ensures seen { (X.device site.new).seen ≡ (X.device site.old).seen }
    ensures kept { store.new.kept ≡ store.old.kept }
    ensures put { store.new.put ≡ store.old.put }
    ensures spent { store.new.spent ≡ not (is_told_unfailed result) }
    ensures room { length out.new ≡ length out.old }
{
    match store.get_piece(site, extent, at, out) {
        Err(Failed) => AnswerTold::Failed,
        Ok(()) => match site.say(out) {
            Err(LinkFailed) => AnswerTold::Unlinked,
            Ok(()) => AnswerTold::All,
        },
    }
}
