//! Why a value or a body isn't read.
ghost use Rattle.std.specs.Prelude.{◌≡◌, IfOk};
ghost use Rattle.json_bodies.specs.Rules.{breach_of};

use disk_trait::{Memory, Text};
use media_rows::Refusal;
use std::alloc::Global;

/// How a value breaks the rule of its member.
#[derive(Clone, Copy, Debug, PartialEq, Eq)]
pub(crate) enum Breach {
    Missing,
    WrongKind,
    TooLong,
    OutOfRange,
    BadTimerange,
}

/// Why a rule gives nothing: a breach, or there was no memory.
#[derive(Clone, Copy, Debug, PartialEq, Eq)]
pub(crate) enum RuleFault {
    Breach(Breach),
    Memory,
}

/// Why a body isn't read: it is refused, or there was no memory.
#[derive(Drop)]
pub enum BodyFault {
    Refused(Refusal),
    Memory,
}

impl Breach {
    /// The refusal of a breach, with the name of the member.
    pub(crate) fn refusal(self, alloc: Global, name: &str) -> Result<Refusal, Memory>
        ensures { IfOk result (λ why. why ≡ breach_of name.now self) }
    {
        let name = Text::from_bytes(alloc, name.as_bytes())?;
        Ok(match self {
            Breach::Missing => Refusal::Missing(name),
            Breach::WrongKind => Refusal::WrongKind(name),
            Breach::TooLong => Refusal::TooLong(name),
            Breach::OutOfRange => Refusal::OutOfRange(name),
            Breach::BadTimerange => Refusal::BadTimerange(name),
        })
    }
}

impl From<Memory> for RuleFault {
    ghost use Rattle.json_bodies.specs.declared.fault.RuleFault.TheVariants.{Memory};

    ghost from_gives = { λ _ e. e ≡ Memory };

    fn from(_: Memory) -> Self {
        RuleFault::Memory
    }
}

impl From<Memory> for BodyFault {
    ghost use Rattle.json_bodies.specs.declared.fault.BodyFault.TheVariants.{Memory};

    ghost from_gives = { λ _ e. e ≡ Memory };

    fn from(_: Memory) -> Self {
        BodyFault::Memory
    }
}
