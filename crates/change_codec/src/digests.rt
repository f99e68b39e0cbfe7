//! The digest at the end of a change that stores an object.
ghost use Rattle.std.specs.Prelude.{◌≡◌};
ghost use Rattle.change_codec.specs.Digests.{DigestsAreLast, DigestsHaveHalves, DigestsTakeAlike, digest_bytes};

use disk_trait::numbers::u128_bytes;
use media_rows::Digest;

/// How many bytes a digest takes.
pub const DIGEST_BYTES: usize = 32;

/// The bytes of a digest as they stand in the file: those of its high half, then those of its low one.
pub fn digest_bytes(digest: Digest) -> [u8; 32]
    ensures { result ≡ digest_bytes digest }
{
    let mut bytes = [0u8; DIGEST_BYTES];
    let (high, low) = bytes.split_at_mut(16);
    high.copy_from_slice(&u128_bytes(digest.high));
    low.copy_from_slice(&u128_bytes(digest.low));
    bytes
}

/// The digest of an object stands last in the spelling of the change that stores it, so another one can be put in its place.
pub fn digests_are_last()
    ensures put { DigestsAreLast }
    ensures size { DigestsTakeAlike }
{}

/// The digest of any bytes can be spelled.
pub fn digests_have_halves()
    ensures { DigestsHaveHalves }
{}
