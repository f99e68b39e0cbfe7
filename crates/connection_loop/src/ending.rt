//! How a connection ends.
ghost use Rattle.std.specs.Prelude.{◌≡◌};

/// How a connection ended. A later one of these stands before an earlier one.
#[derive(Clone, Copy, Debug, PartialEq, Eq)]
pub enum ConnectionEnd {
    /// With its peer's bytes, behind a whole request, or with an answer that ends it.
    Complete,
    /// With its peer's bytes, within a request.
    Cut,
    /// With a call of its link that failed.
    Unlinked,
    /// With an answer for want of memory.
    Starved,
    /// With a fault of the disk, which ends the run.
    Stopped,
}

impl ConnectionEnd {
    ghost use Rattle.connection_loop.specs.Turns.{is_stopped};

    /// Whether it ends the run too.
    pub(crate) fn is_stopped(self) -> bool
        ensures { result ≡ is_stopped self }
    {
        matches!(self, ConnectionEnd::Stopped)
    }
}
