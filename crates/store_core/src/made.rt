//! What a command that nothing refuses makes: its reply, and the change with the library after it.
ghost use Rattle.std.specs.Prelude.{◌≡◌};
ghost use Rattle.media_rows.specs.Answer.{created_unless, list_reply};
ghost use Rattle.store_core.specs.Within.{made_change, made_none};

use core_parts::Parts;
use media_rows::{Change, FailedList, Reply};

/// A change, and the library after it, unless its serials would end.
#[derive(Drop)]
pub(crate) struct ChangeStep {
    pub(crate) change: Change,
    pub(crate) next: Option<Parts>,
}

/// A reply, and what is changed, where something is.
#[derive(Drop)]
pub(crate) struct Made {
    pub(crate) reply: Reply,
    pub(crate) step: Option<ChangeStep>,
}

impl Made {
    /// A reply to a command that makes a change.
    pub(crate) fn changed(reply: Reply, change: Change, next: Option<Parts>) -> Made
        ensures { result ≡ made_change reply change next }
    {
        Made {
            reply,
            step: Some(ChangeStep { change, next }),
        }
    }

    /// A reply to a command that leaves the library as it is.
    pub(crate) fn unchanged(reply: Reply) -> Made
        ensures { result ≡ made_none reply }
    {
        Made { reply, step: None }
    }
}

/// Something is made, or one that is there is replaced.
pub(crate) fn created_unless(there: bool) -> Reply
    ensures { result ≡ created_unless there }
{
    if there { Reply::Done } else { Reply::Created }
}

/// All segments of a list are kept, or some failed.
pub(crate) fn list_reply(failed: FailedList) -> Reply
    ensures { result ≡ list_reply failed }
{
    if failed.items().is_empty() {
        return Reply::Created;
    }
    Reply::Partly(failed)
}
