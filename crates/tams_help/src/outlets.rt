//! Where the lines of a run go.
use disk_trait::TextList;
use site_edge::{Aside, HostSink, is_error, is_output};
use std::fs::File;
use std::io::{Stderr, Stdin, Stdout};
use std::rt::Files;
use std::str;

/// The three standard streams.
#[derive(Clone, Copy)]
pub struct Streams {
    pub input: Stdin,
    pub output: Stdout,
    pub error: Stderr,
}

/// The standard streams, which of them may be written to, and what is told beside the notes.
#[derive(Clone, Copy)]
pub struct Outlets {
    pub streams: Streams,
    pub aside: Aside,
    output_is_free: bool,
    error_is_free: bool,
}

impl Outlets {
    /// Those of a run with these words. A stream that is a file which one of them names is kept off.
    pub fn new<R: Files<File = File>>(rt: &R, streams: Streams, words: &TextList) -> Outlets {
        let (mut output_is_free, mut error_is_free) = (true, true);
        for word in words.items() {
            if let Ok(path) = str::from_utf8(word.bytes()) {
                output_is_free = output_is_free && !is_output(rt, path);
                error_is_free = error_is_free && !is_error(rt, path);
            }
        }
        Outlets {
            streams,
            aside: Aside::new(streams.error, error_is_free),
            output_is_free,
            error_is_free,
        }
    }

    /// Whether standard output may be written to.
    pub fn has_output(&self) -> bool {
        self.output_is_free
    }

    /// Where the notes go: to standard output, or to standard error where answers go to the output; to the other
    /// one where that may not be written to, and nowhere where neither may be.
    pub fn notes(&self, answers: bool) -> HostSink {
        let mut notes = if self.output_is_free && (!answers || !self.error_is_free) {
            HostSink::output(self.streams.output)
        } else if self.error_is_free {
            HostSink::error(self.streams.error)
        } else {
            HostSink::nowhere()
        };
        notes.wipe_before(self.aside);
        notes
    }
}
