//! Digests of bytes, and digests in text.
ghost use Rattle.std.specs.Prelude.{◌≡◌, ◌≤◌, ◌++◌, ℕ, List, IfOk, OnOk, drop, length, take};
ghost use Rattle.std.specs.Int.{from_be_bytes, w128};
ghost use Rattle.sha2.specs.Sha256.{sha256};
ghost use Rattle.uuid.specs.Text.{lower, simple_text};
ghost use Rattle.media_rows.specs.Digests.{digest_of, digest_text, half_digest_text};

use crate::object::Digest;
use disk_trait::{Memory, Text};
use sha2::{Digest as _, Sha256};
use std::alloc::Global;
use uuid::Uuid;
use uuid::fmt::Simple;

/// The digest of bytes.
pub fn digest_of(bytes: &[u8]) -> Digest
    ensures { result ≡ digest_of bytes.now }
{
    Digest::from_hash(Sha256::digest(bytes))
}

impl Digest {
    /// The digest with the 32 bytes that a hasher gives.
    #[tactic(auto, unfolding(crate::specs::Digests::digest_of))]
    pub fn from_hash(hash: [u8; 32]) -> Digest
        ensures { (bytes : List ℕ) → hash ≡ sha256 bytes → result ≡ digest_of bytes }
    {
        let (high, low) = hash.split_at(16);
        Digest {
            high: half_of(high),
            low: half_of(low),
        }
    }
}

/// The number that 16 bytes spell.
fn half_of(bytes: &[u8]) -> u128
    requires { length bytes.now ≡ 16 }
    ensures { result ≡ from_be_bytes w128 bytes.now }
{
    let mut half = [0u8; 16];
    half.copy_from_slice(bytes);
    u128::from_be_bytes(half)
}

/// The 64 hexadecimal digits of a digest, in lower case.
pub fn print_digest(alloc: Global, digest: Digest) -> Result<Text, Memory>
    ensures { IfOk result (λ text. text ≡ digest_text digest) }
{
    let mut text = print_half(alloc, digest.high)?;
    text.append(print_half(alloc, digest.low)?.bytes())?;
    Ok(text)
}

/// The 32 hexadecimal digits of 16 bytes, which are those of an id without hyphens (RFC 9562, section 4).
fn print_half(alloc: Global, half: u128) -> Result<Text, Memory>
    ensures { IfOk result (λ text. text ≡ half_digest_text half) }
{
    let mut buffer = Uuid::encode_buffer();
    let spelled = Uuid::from_u128(half).simple();
    let printed = write_half(&spelled, &mut buffer);
    Text::from_bytes(alloc, printed.as_bytes())
}

/// Writes such digits in lower case to the start of a buffer of at least 32 bytes.
fn write_half<'b>(half: &Simple, buffer: &'b mut [u8]) -> &'b str
    requires { 32 ≤ length buffer.old }
    ensures { result.now ≡ simple_text lower half.now }
{
    half.encode_lower(buffer)
}
