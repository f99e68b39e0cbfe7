//! Measures SHA-256: `digest_measure SIZE TIMES` takes the digest of SIZE bytes so often, in pieces as a store hears
//! them. It prints one number, to which the first byte of each digest adds; the time is taken from outside, less that
//! of the same words with 0 times.
#![tactic(auto)]

ghost use Rattle.std.specs.Prelude.{◌≡◌, length};

use disk_trait::Memory;
use sha2::{Digest, Sha256};
use std::alloc::Global;
use std::process::ExitCode;
use std::rt::Env;
use std::{env, io};

/// The status where the words are no measure.
const NO_MEASURE: u8 = 2;

/// The status where there is no memory.
const NO_MEMORY: u8 = 4;

/// The bytes of a piece.
const PIECE: usize = 65_536;

fn main(rt: HostRuntime) -> io::Result<ExitCode> {
    let mut words = Vec::new(rt.alloc());
    for word in env::args(&rt)?.skip(1) {
        words.push(word)?;
    }
    let [size, times] = words.as_slice() else {
        return Ok(ExitCode::from(NO_MEASURE));
    };
    let (Ok(size), Ok(times)) = (size.parse::<u64>(), times.parse::<u64>()) else {
        return Ok(ExitCode::from(NO_MEASURE));
    };
    match measured(rt.alloc(), size, times) {
        Ok(sum) => {
            println!(rt; "{sum}")?;
            Ok(ExitCode::from(0))
        }
        Err(Memory) => Ok(ExitCode::from(NO_MEMORY)),
    }
}

/// What the first bytes of the digests add up to.
fn measured(alloc: Global, size: u64, times: u64) -> Result<u64, Memory> {
    let piece = vec![in alloc; 0x5au8; PIECE]?;
    let mut sum = 0u64;
    for _ in 0..times {
        sum = sum.wrapping_add(first_of_digest(&piece, size));
    }
    Ok(sum)
}

/// The first byte of the digest of so many bytes, in such pieces.
fn first_of_digest(piece: &[u8], size: u64) -> u64
    requires { length piece.now ≡ 65536 }
{
    let mut hasher = Sha256::new();
    for _ in 0..size / PIECE as u64 {
        hasher.update(piece);
    }
    let rest = (size % PIECE as u64) as usize;
    hasher.update(&piece[..rest]);
    let digest = hasher.finalize();
    u64::from(digest[0])
}
