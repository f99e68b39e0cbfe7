//! How far a command is.
use crate::Aside;
use crate::limits::{PROGRESS_STEP, UNSHOWN};

const MICROS_PER_SECOND: u64 = 1_000_000;

const BYTES_PER_MIB: u64 = 1_048_576;

/// What a command has read and written of its file so far. It is shown on a terminal, in one line that is written
/// over, once the command has taken a while.
#[derive(Clone, Copy)]
pub(crate) struct Progress {
    aside: Aside,
    word: &'static str,
    /// Bytes of the file, as many as there are to be read at most.
    most: u64,
    next: u64,
    read: u64,
    written: u64,
}

impl Progress {
    /// That of what this word names, over a file of so many bytes.
    pub(crate) fn new(aside: Aside, word: &'static str, size: u64) -> Progress {
        Progress {
            aside,
            word,
            most: size,
            next: UNSHOWN,
            read: 0,
            written: 0,
        }
    }

    pub(crate) fn read(&mut self, count: usize) {
        self.read = self.read.saturating_add(count as u64);
        self.show();
    }

    pub(crate) fn write(&mut self, count: usize) {
        self.written = self.written.saturating_add(count as u64);
        self.show();
    }

    /// Takes away what is shown.
    pub(crate) fn end(&self) {
        self.aside.wipe();
    }

    fn show(&mut self) {
        let spent = self.aside.spent();
        if spent < self.next {
            return;
        }
        self.next = spent.saturating_add(PROGRESS_STEP);
        let seconds = spent / MICROS_PER_SECOND;
        let read = self.read / BYTES_PER_MIB;
        let most = self.most / BYTES_PER_MIB;
        let written = self.written / BYTES_PER_MIB;
        let word = self.word;
        self.aside.show(format_args!(
            "{word}: {seconds} s, {read} of at most {most} MiB read, {written} MiB written"
        ));
    }
}
