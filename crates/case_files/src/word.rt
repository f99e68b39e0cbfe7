//! The words with which lines of a case file begin.

#[derive(Clone, Copy)]
pub(crate) enum Word {
    /// Bytes with a name.
    Bytes,
    Device,
    Store,
    Write,
    Holds,
    Run,
    Word,
    Opens,
    Clock,
    Piece,
    Peer,
    FailDisk,
    FailLink,
    FailNotes,
    Says,
    Status,
    Notes,
    Sweep(Failing),
    SaysBytes,
    Instead,
    LeavesStates,
    Probe,
    State,
}

/// What fails in turn.
#[derive(Clone, Copy)]
pub enum Failing {
    /// Each call of the disk.
    Disk,
    /// Each call of the link.
    Link,
    /// The run itself, which stops within each call that changes the file.
    Stop,
}

const WORDS: [(&str, Word); 25] = [
    ("bytes", Word::Bytes),
    ("device", Word::Device),
    ("store", Word::Store),
    ("write", Word::Write),
    ("holds", Word::Holds),
    ("run", Word::Run),
    ("word", Word::Word),
    ("opens", Word::Opens),
    ("clock", Word::Clock),
    ("piece", Word::Piece),
    ("peer", Word::Peer),
    ("fail-disk-calls", Word::FailDisk),
    ("fail-link-calls", Word::FailLink),
    ("fail-notes", Word::FailNotes),
    ("says", Word::Says),
    ("status", Word::Status),
    ("notes", Word::Notes),
    ("fail-each-disk-call", Word::Sweep(Failing::Disk)),
    ("fail-each-link-call", Word::Sweep(Failing::Link)),
    ("stop-in-each-write", Word::Sweep(Failing::Stop)),
    ("says-bytes", Word::SaysBytes),
    ("instead", Word::Instead),
    ("leaves-states", Word::LeavesStates),
    ("probe", Word::Probe),
    ("state", Word::State),
];

pub(crate) fn word_of(text: &str) -> Option<Word> {
    for (name, word) in &WORDS {
        if *name == text {
            return Some(*word);
        }
    }
    None
}
