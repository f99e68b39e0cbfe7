//! The header of the file, and the numbers that it may have.
ghost use Rattle.std.specs.Prelude.{◌≡◌, ◌≤◌, ◌↔◌, ◌*◌, true, length, is_ok, IsTrue, IfOk};
ghost use Rattle.disk_trait.specs.Calls.{DiskReads};
ghost use Rattle.media_journal.specs.File.{AreSizes, HasOpenHeader, HeaderAnswer, magic};

use disk_trait::numbers::{read_u64, read_u128};
use disk_trait::{Disk, Failed, same_bytes};

/// The bytes of a block.
pub const BLOCK: u64 = 4096;

/// The bytes of the header, with its gate.
pub const HEADER: u64 = 41;

/// Where the first half begins: behind the block of the header and that of the selector.
pub const HALVES: u64 = 2 * BLOCK;

/// Where the selector stands.
pub const SELECTOR: u64 = BLOCK;

/// The most blocks of a file.
pub const MOST_BLOCKS: u64 = 1_073_741_824;

/// The most blocks of a half.
pub const MOST_HALF: u64 = 65_536;

/// What a header says: the blocks of the file, the blocks of a half, and the store's id.
#[derive(Clone, Copy, Debug, PartialEq, Eq)]
pub struct Header {
    pub blocks: u64,
    pub half: u64,
    pub id: u128,
}

impl Header {
    /// Whether a file of so many bytes may have these numbers.
    pub fn fits(&self, size: u64) -> bool
        ensures { IsTrue result ↔ AreSizes self.now size }
    {
        1 <= self.half
            && self.half <= MOST_HALF
            && self.blocks <= MOST_BLOCKS
            && 2 * self.half + 3 <= self.blocks
            && BLOCK * self.blocks <= size
    }
}

/// The eight bytes with which a store begins.
#[tactic(auto, unfolding(crate::specs::File::magic))]
pub(crate) fn magic() -> [u8; 8]
    ensures { result ≡ magic }
{
    *b"TAMSST01"
}

/// Reads the header: none where it isn't an open one.
pub(crate) fn read_header<D: Disk>(disk: &mut D) -> Result<Option<Header>, Failed>
    requires { HEADER ≤ (D.device disk.old).size }
    ensures reads { DiskReads (is_ok result) (D.device disk.old) (D.device disk.new) }
    ensures header { (D.device disk.old).shows ≡ true
        → IfOk result (HeaderAnswer (D.device disk.old).seen) }
{
    let mut bytes = [0u8; 41];
    disk.read_at(0, &mut bytes)?;
    Ok(header_of(&bytes))
}

/// The header that a file begins with whose first 41 bytes are these.
fn header_of(bytes: &[u8]) -> Option<Header>
    requires { length bytes.now ≡ HEADER }
    ensures { HeaderAnswer bytes.now result }
{
    if !is_open(bytes) {
        return None;
    }
    let (text, _) = bytes.split_at(40);
    let (_, numbers) = text.split_at(8);
    let (blocks, numbers) = numbers.split_at(8);
    let (half, id) = numbers.split_at(8);
    Some(Header {
        blocks: read_u64(blocks),
        half: read_u64(half),
        id: read_u128(id),
    })
}

/// Whether a file that begins with these bytes has an open header.
pub(crate) fn is_open(bytes: &[u8]) -> bool
    requires { length bytes.now ≡ HEADER }
    ensures { IsTrue result ↔ HasOpenHeader bytes.now }
{
    let (begin, _) = bytes.split_at(8);
    same_bytes(begin, &magic()) && bytes[40] == 1
}
