//! The laws of the machine that a contract can say.
ghost use Rattle.tams_machine.specs.Worked.{MachineAsWorked};
ghost use Rattle.tams_machine.specs.Laws.{AnswersKeepBytes, AnswersKeepDigests, AnswersKeepGood, RequestsAreOne, RequestsSendBytes, TurnsKeepBytes, TurnsKeepDigests, TurnsKeepGood};

use change_codec::fits_as_worked;
use library_laws::{first_bytes_stay, turns_apply};

/// The front of a connection's bytes spells one request at most.
pub fn requests_are_one()
    ensures { RequestsAreOne }
{}

/// A request keeps the bytes of an object by a media PUT alone.
pub fn requests_send_bytes()
    ensures { RequestsSendBytes }
{}

/// An answer's change leaves a good state, in which each object that was stored has the bytes and the digest
/// that it had. Where each has the digest of its bytes, so each has then.
pub fn answers_keep()
    ensures good { AnswersKeepGood }
    ensures bytes { AnswersKeepBytes }
    ensures digests { AnswersKeepDigests }
{
    first_bytes_stay();
}

/// And so does a turn's.
pub fn turns_keep()
    ensures good { TurnsKeepGood }
    ensures bytes { TurnsKeepBytes }
    ensures digests { TurnsKeepDigests }
{
    turns_apply();
    first_bytes_stay();
}

/// An interim, the last request of a connection, the put of a flow, the bytes of an object and a turn, by hand.
pub fn machine_as_worked()
    ensures { MachineAsWorked }
{
    fits_as_worked();
}
