//! Why a case doesn't pass.
ghost use Rattle.std.specs.Prelude.{◌≡◌};

use disk_trait::Memory;
use std::alloc::{AllocError, AllocFailed};
use std::{fmt, io};

/// What is wrong with a line of a case file.
#[derive(Clone, Copy)]
pub enum Fault {
    /// It begins with none of the words.
    Word,
    /// Its word may not stand there.
    Place,
    /// A number is missing, isn't in decimal, or is past its range.
    Number,
    /// Bytes that belong to no word above them, or have no `|`, `=` or `@`.
    Bytes,
    /// Bytes in hexadecimal that aren't two digits each.
    Hexadecimal,
    /// No bytes above have this name.
    Name,
    /// No case before this one has this name, or it didn't pass.
    Case,
    /// The file ends before the end of its bytes.
    End,
}

impl Fault {
    pub fn at(self, line: u64) -> Problem
        ensures { result ≡ Problem.Malformed line self }
    {
        Problem::Malformed { line, fault: self }
    }
}

impl fmt::Display for Fault {
    fn fmt<W: fmt::Write>(&self, f: &mut fmt::Formatter<W>) -> fmt::Result {
        f.write_str(match self {
            Fault::Word => "no such word",
            Fault::Place => "not a word that may stand here",
            Fault::Number => "not a number that may stand here",
            Fault::Bytes =>
                "bytes that belong to nothing, or begin with nothing of `|`, `=` and `@`",
            Fault::Hexadecimal => "not two hexadecimal digits",
            Fault::Name => "no bytes of that name above",
            Fault::Case => "no case of that name passed before",
            Fault::End => "past the end of the file",
        })
    }
}

/// Why a case doesn't pass. Lines count from 1.
#[derive(Drop)]
pub enum Problem {
    Memory,
    /// The case file isn't there, or isn't text.
    Unread,
    Malformed { line: u64, fault: Fault },
    Differs { line: u64, what: String },
}

impl fmt::Display for Problem {
    fn fmt<W: fmt::Write>(&self, f: &mut fmt::Formatter<W>) -> fmt::Result {
        match self {
            Problem::Memory => f.write_str(": no memory"),
            Problem::Unread => f.write_str(": can't be read"),
            Problem::Malformed { line, fault } => write!(f, " line {line}: malformed: {fault}"),
            Problem::Differs { line, what } => write!(f, " line {line}: {what}"),
        }
    }
}

impl From<Memory> for Problem {
    fn from(_: Memory) -> Self {
        Problem::Memory
    }
}

impl From<AllocError> for Problem {
    fn from(_: AllocError) -> Self {
        Problem::Memory
    }
}

impl<T: Drop> From<AllocFailed<T>> for Problem {
    fn from(_: AllocFailed<T>) -> Self {
        Problem::Memory
    }
}

impl From<io::Error> for Problem {
    fn from(error: io::Error) -> Self {
        if error.kind() == io::ErrorKind::OutOfMemory {
            Problem::Memory
        } else {
            Problem::Unread
        }
    }
}
