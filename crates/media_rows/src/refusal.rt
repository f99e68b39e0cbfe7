//! Refusals: why a request isn't done. Each has a number, a status and a name in the table of
//! `specs/RefusalTable.antt`.
ghost use Rattle.std.specs.Prelude.{◌≡◌};
ghost use Rattle.media_rows.specs.RefusalTable.{refusal_number, refusal_status};

use crate::object::Digest;
use disk_trait::{Memory, Text};
use time_range::TimeRange;

/// A refusal, with its detail where it has one: the name of a member, a query's name, a part, the id
/// of a flow or an object, the range of a kept segment, or the digest that is kept of an object's bytes
/// and the one that was found.
#[derive(Drop)]
pub enum Refusal {
    BadHead,
    BadFraming,
    LengthRequired,
    TooLarge,
    Coding,
    NoRoute,
    NoMethod,
    NotJson,
    Fractional,
    Missing(Text),
    WrongKind(Text),
    TooLong(Text),
    OutOfRange(Text),
    BadTimerange(Text),
    BadQuery(Text),
    NoSource,
    NoFlow,
    UnknownObject,
    NoRequest,
    NotSet(Text),
    Deleting,
    ReadOnly,
    SourceFormat,
    FlowChanged,
    CollectsItself,
    CollectedMissing(u128),
    IdTaken(Text),
    OtherBytes,
    NoObject(Text),
    Overlap(TimeRange),
    JournalFull,
    MediaFull,
    ObjectDamaged { kept: Digest, found: Digest },
}

impl Refusal {
    /// The number of the refusal: 1 to 33.
    pub fn number(&self) -> u8
        ensures { result ≡ refusal_number self.now }
    {
        match self {
            Refusal::BadHead => 1,
            Refusal::BadFraming => 2,
            Refusal::LengthRequired => 3,
            Refusal::TooLarge => 4,
            Refusal::Coding => 5,
            Refusal::NoRoute => 6,
            Refusal::NoMethod => 7,
            Refusal::NotJson => 8,
            Refusal::Fractional => 9,
            Refusal::Missing(_) => 10,
            Refusal::WrongKind(_) => 11,
            Refusal::TooLong(_) => 12,
            Refusal::OutOfRange(_) => 13,
            Refusal::BadTimerange(_) => 14,
            Refusal::BadQuery(_) => 15,
            Refusal::NoSource => 16,
            Refusal::NoFlow => 17,
            Refusal::UnknownObject => 18,
            Refusal::NoRequest => 19,
            Refusal::NotSet(_) => 20,
            Refusal::Deleting => 21,
            Refusal::ReadOnly => 22,
            Refusal::SourceFormat => 23,
            Refusal::FlowChanged => 24,
            Refusal::CollectsItself => 25,
            Refusal::CollectedMissing(_) => 26,
            Refusal::IdTaken(_) => 27,
            Refusal::OtherBytes => 28,
            Refusal::NoObject(_) => 29,
            Refusal::Overlap(_) => 30,
            Refusal::JournalFull => 31,
            Refusal::MediaFull => 32,
            Refusal::ObjectDamaged { .. } => 33,
        }
    }

    /// The status with which the refusal is answered (RFC 9110, section 15).
    pub fn status(&self) -> u16
        ensures { result ≡ refusal_status self.now }
    {
        match self {
            Refusal::ReadOnly => 403,
            Refusal::NoRoute
            | Refusal::NoSource
            | Refusal::NoFlow
            | Refusal::UnknownObject
            | Refusal::NoRequest
            | Refusal::NotSet(_) => 404,
            Refusal::NoMethod => 405,
            Refusal::Deleting | Refusal::IdTaken(_) | Refusal::OtherBytes => 409,
            Refusal::ObjectDamaged { .. } => 410,
            Refusal::LengthRequired => 411,
            Refusal::TooLarge => 413,
            Refusal::Coding => 415,
            Refusal::JournalFull | Refusal::MediaFull => 507,
            _ => 400,
        }
    }
}

/// Why a book's call gives no new book.
#[derive(Drop)]
pub enum BookFault {
    Refused(Refusal),
    Memory,
}

/// Why rows or a change give no book or library: the rules refuse them, or there was no memory.
#[derive(Clone, Copy, Debug, PartialEq, Eq)]
pub enum ApplyFault {
    Refused,
    Memory,
}

impl From<Memory> for BookFault {
    ghost use Rattle.media_rows.specs.declared.refusal.BookFault.TheVariants.{Memory};

    ghost from_gives = { λ _ e. e ≡ Memory };

    fn from(_: Memory) -> Self {
        BookFault::Memory
    }
}

impl From<Memory> for ApplyFault {
    ghost use Rattle.media_rows.specs.declared.refusal.ApplyFault.TheVariants.{Memory};

    ghost from_gives = { λ _ e. e ≡ Memory };

    fn from(_: Memory) -> Self {
        ApplyFault::Memory
    }
}
