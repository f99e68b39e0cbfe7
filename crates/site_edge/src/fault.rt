//! What a link or a sink answers that failed, which their counts of faults tell from a call that gave up,
//! and what opening a file answers.
ghost use Rattle.std.specs.Prelude.{◌≡◌, false, is_ok};
ghost use Rattle.disk_trait.specs.Calls.{IsCounted};

use std::fmt::{Display, Formatter};
use std::{fmt, io};

/// A call to a peer failed.
#[derive(Clone, Copy, Debug, PartialEq, Eq)]
pub struct LinkFailed;

/// A sink took some of the bytes at most.
#[derive(Clone, Copy, Debug, PartialEq, Eq)]
pub struct SinkFailed;

/// Why a file could not be opened, made, lengthened, locked or synced.
#[derive(Clone, Copy, Debug)]
pub enum FileFailed {
    /// A call of the system failed so.
    System(io::Error),
    /// Another open of the file holds its lock.
    InUse,
    /// It is that of a standard stream, or got the descriptor of one.
    IsStream,
    /// Its path isn't UTF-8.
    NoText,
}

impl From<io::Error> for FileFailed {
    fn from(error: io::Error) -> Self {
        FileFailed::System(error)
    }
}

/// The text of a line that tells it.
impl Display for FileFailed {
    fn fmt<W: fmt::Write>(&self, out: &mut Formatter<W>) -> fmt::Result {
        match self {
            FileFailed::System(error) => write!(out, "{error}"),
            FileFailed::InUse => out.write_str("in use by another program"),
            FileFailed::IsStream => out.write_str("a standard stream is this file, or is closed"),
            FileFailed::NoText => out.write_str("the path is not UTF-8"),
        }
    }
}

/// Counts one more fault. The last value of a `u64` stands still.
pub(crate) fn count_fault(faults: &mut u64)
    ensures { IsCounted false faults.old faults.new }
{
    *faults = faults.saturating_add(1);
}

/// The answer of a call of the system, with this failure for each of its errors, which are counted.
pub(crate) fn counted<E: Drop>(
    answer: io::Result<()>,
    faults: &mut u64,
    failure: E,
) -> Result<(), E>
    ensures same { is_ok result ≡ is_ok answer }
    ensures counted { IsCounted (is_ok result) faults.old faults.new }
{
    match answer {
        Ok(()) => Ok(()),
        Err(_) => {
            count_fault(faults);
            Err(failure)
        }
    }
}
