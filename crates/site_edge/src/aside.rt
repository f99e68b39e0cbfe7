//! What is told beside the notes.
use crate::limits::UNSHOWN;
use crate::stopwatch::steady_micros;
use crate::streams::is_open;
use std::fmt::Display;
use std::io::{IsTerminal, Print, Stderr};

/// Takes a line on a terminal away: back to its beginning, and all behind it erased (ECMA-48, section 8.3.41).
const WIPE: &str = "\r\x1b[K";

/// Lines beside the notes, on standard error: why a command can't be done, and how far it is. Where the stream is
/// closed or may not be written to they go nowhere, and a fault of it changes nothing.
#[derive(Clone, Copy)]
pub struct Aside {
    stream: Stderr,
    is_open: bool,
    is_terminal: bool,
    begun: u64,
}

impl Aside {
    /// Lines on this stream, if it may be written to. The time of the run begins now.
    pub fn new(stream: Stderr, may_write: bool) -> Aside {
        let is_open = may_write && is_open(libc::STDERR_FILENO);
        Aside {
            stream,
            is_open,
            is_terminal: is_open && stream.is_terminal(),
            begun: steady_micros(),
        }
    }

    /// Whether the lines go anywhere.
    pub fn is_heard(&self) -> bool {
        self.is_open
    }

    /// Puts this text and a line end.
    pub fn put<D: Display + Drop>(&self, text: D) {
        if self.is_open {
            self.wipe();
            let _ = self.stream.println(text);
        }
    }

    /// Takes progress away that may stand on the terminal.
    pub fn wipe(&self) {
        if self.is_terminal && self.spent() >= UNSHOWN {
            let _ = self.stream.print(WIPE);
        }
    }

    /// Whether progress can be shown.
    pub(crate) fn shows(&self) -> bool {
        self.is_terminal
    }

    /// Shows this text in place of the one before.
    pub(crate) fn show<D: Display + Drop>(&self, text: D) {
        if self.is_terminal {
            let _ = print!(self.stream; "{WIPE}{text}");
        }
    }

    /// The microseconds since the run began.
    pub(crate) fn spent(&self) -> u64 {
        steady_micros().saturating_sub(self.begun)
    }
}
