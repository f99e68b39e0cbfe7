//! Where the head of a request ends.
use crate::limits::MOST_HEAD;

/// What was heard of a head.
#[derive(Clone, Copy)]
pub(crate) struct HeadEnd {
    count: u64,
    in_line: bool,
}

impl HeadEnd {
    /// Nothing of it.
    pub(crate) fn new() -> HeadEnd {
        HeadEnd {
            count: 0,
            in_line: true,
        }
    }

    /// Whether it ends within these further bytes: with an empty line (RFC 9112, section 2.1), or since it has
    /// more bytes than any head.
    pub(crate) fn is_in(&mut self, heard: &[u8]) -> bool {
        for byte in heard {
            match *byte {
                b'\n' if !self.in_line => return true,
                b'\n' => self.in_line = false,
                b'\r' => {}
                _ => self.in_line = true,
            }
        }
        self.count = self.count.saturating_add(heard.len() as u64);
        self.count > MOST_HEAD
    }
}
