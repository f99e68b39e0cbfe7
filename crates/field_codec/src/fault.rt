//! Why bytes could not be read.
ghost use Rattle.std.specs.Prelude.{◌≡◌};

use disk_trait::Memory;

/// Why bytes give no value.
#[derive(Clone, Copy, Debug, PartialEq, Eq)]
pub enum CodecFault {
    /// The bytes are no spelling. The offset is where the first faulty field begins that holds no
    /// other faulty field.
    Bad(usize),
    /// There is no memory for the value.
    Memory,
}

/// A faulty field begins where so many bytes are left. Readers count what is left, and so need not
/// know where they are.
#[derive(Clone, Copy, Debug, PartialEq, Eq)]
pub struct BadField {
    pub left: usize,
}

/// Why a value could not be read.
#[derive(Clone, Copy, Debug, PartialEq, Eq)]
pub enum ReadFault {
    /// The bytes are no spelling.
    Bad(BadField),
    /// There is no memory for the value.
    Memory,
}

impl From<BadField> for ReadFault {
    ghost use Rattle.field_codec.specs.declared.fault.ReadFault.TheVariants.{Bad};

    ghost from_gives = { λ f e. e ≡ Bad f };

    fn from(field: BadField) -> ReadFault {
        ReadFault::Bad(field)
    }
}

impl From<Memory> for ReadFault {
    ghost use Rattle.field_codec.specs.declared.fault.ReadFault.TheVariants.{Memory};

    ghost from_gives = { λ _ e. e ≡ Memory };

    fn from(_: Memory) -> ReadFault {
        ReadFault::Memory
    }
}

impl From<Memory> for CodecFault {
    ghost use Rattle.field_codec.specs.declared.fault.CodecFault.TheVariants.{Memory};

    ghost from_gives = { λ _ e. e ≡ Memory };

    fn from(_: Memory) -> CodecFault {
        CodecFault::Memory
    }
}
