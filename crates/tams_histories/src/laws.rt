//! Laws of histories. Each function does nothing.
ghost use Rattle.tams_histories.specs.Along.{RunsKeepObjects};
ghost use Rattle.tams_histories.specs.Posts.{ListsAreAnswered, PostsSucceed};

use library_laws::{answers_are_allowed, first_bytes_stay, turns_apply};
use tams_machine::requests_send_bytes;

/// What is stored in a state of a run keeps its bytes and its digest in each later one. Where each stored
/// object has the digest of its bytes when a run begins, so it has in each state of it.
pub fn runs_keep_objects()
    ensures { RunsKeepObjects }
{
    requests_send_bytes();
    answers_are_allowed();
    turns_apply();
    first_bytes_stay();
}

/// A post of segments that isn't refused as a whole, and whose kept segments fit, is answered by those that
/// failed, and the state after it has those that are kept.
pub fn lists_are_answered()
    ensures { ListsAreAnswered }
{}

/// A valid post of segments that fits is answered `Created`.
pub fn posts_succeed()
    ensures { PostsSucceed }
{}
