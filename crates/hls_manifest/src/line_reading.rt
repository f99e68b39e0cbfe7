//! The lines of a text, and the numbers that single lines hold.
ghost use Rattle.std.specs.Prelude.{◌≡◌, ◌≤◌, ◌<◌, ◌+◌, ◌/◌, ◌^◌, ◌↔◌, ◌++◌, ℕ, List, IfSome, IsNone, IsTrue, length};
ghost use Rattle.hls_manifest.specs.Playlists.{duration_text, IsAddress, IsLine, last_digits};
ghost use Rattle.hls_manifest.specs.Progress.{IsFirstLine, IsNumber, IsNumberOrZero, IsTargetLine, timing};

use disk_trait::same_bytes;
use std::str;

/// Decimal digits of the nanoseconds of a duration.
const NANO_DIGITS: usize = 9;

/// The first line of a text, without its line feed, and what stands behind that.
pub(crate) fn first_line(text: &[u8]) -> Option<(&[u8], &[u8])>
    ensures found { IfSome result (λ cut. IsFirstLine text.now cut.0.now cut.1.now) }
    ensures none { IsNone result → IsLine text.now }
{
    for index in 0..text.len() {
        if text[index] == b'\n' {
            let (line, behind) = text.split_at(index);
            return Some((line, &behind[1..]));
        }
    }
    None
}

/// Whether a line is an address.
pub(crate) fn is_address(line: &[u8]) -> bool
    requires { IsLine line.now }
    ensures { IsTrue result ↔ IsAddress line.now }
{
    !line.is_empty() && line[0] != b'#'
}

/// What stands behind these first bytes of a text.
fn behind<'a>(text: &'a [u8], front: &[u8]) -> Option<&'a [u8]>
    ensures found { IfSome result (λ rest. text.now ≡ front.now ++ rest.now) }
    ensures none { IsNone result → (rest : List ℕ) → text.now ≡ front.now ++ rest → ⊥ }
{
    text.strip_prefix(front)
}

/// What stands before these last bytes of a text.
fn before<'a>(text: &'a [u8], end: &[u8]) -> Option<&'a [u8]>
    ensures found { IfSome result (λ rest. text.now ≡ rest.now ++ end.now) }
    ensures none { IsNone result → (rest : List ℕ) → text.now ≡ rest ++ end.now → ⊥ }
{
    text.strip_suffix(end)
}

/// The target duration that a line gives.
pub(crate) fn read_target(line: &[u8]) -> Option<u64>
    ensures found { IfSome result (IsTargetLine line.now) }
    ensures none { IsNone result → (n : ℕ) → IsTargetLine line.now n → ⊥ }
{
    read_number(behind(line, b"#EXT-X-TARGETDURATION:")?)
}

/// The duration in nanoseconds that a line gives.
pub(crate) fn read_timing(line: &[u8]) -> Option<u128>
    ensures found { IfSome result (λ nanos. line.now ≡ timing nanos) }
    ensures fits { IfSome result (λ nanos. nanos / 10 ^ 9 < 2 ^ 64) }
    ensures none { IsNone result → (nanos : ℕ) → nanos / 10 ^ 9 < 2 ^ 64
        → line.now ≡ timing nanos → ⊥ }
{
    read_duration(before(behind(line, b"#EXTINF:")?, b",")?)
}

/// The duration in nanoseconds that a text spells in seconds, a point and nine digits.
fn read_duration(text: &[u8]) -> Option<u128>
    ensures found { IfSome result (λ nanos. text.now ≡ duration_text nanos) }
    ensures fits { IfSome result (λ nanos. nanos / 10 ^ 9 < 2 ^ 64) }
    ensures none { IsNone result → (nanos : ℕ) → nanos / 10 ^ 9 < 2 ^ 64
        → text.now ≡ duration_text nanos → ⊥ }
{
    if text.len() <= NANO_DIGITS {
        return None;
    }
    let (seconds, fraction) = text.split_at(text.len() - NANO_DIGITS - 1);
    let seconds = read_number_or_zero(seconds)?;
    let nanos = read_digits(behind(fraction, b".")?)?;
    Some(u128::from(seconds) * 1_000_000_000 + u128::from(nanos))
}

/// The number that at most nine decimal digits spell.
fn read_digits(digits: &[u8]) -> Option<u64>
    requires { length digits.now ≤ 9 }
    ensures fits { IfSome result (λ n. n < 10 ^ length digits.now) }
    ensures found { IfSome result (λ n. digits.now ≡ last_digits (length digits.now) n) }
    ensures none { IsNone result → (n : ℕ) → digits.now ≡ last_digits (length digits.now) n → ⊥ }
{
    let mut number = 0u64;
    for digit in digits {
        if *digit < b'0' || b'9' < *digit {
            return None;
        }
        number = number * 10 + u64::from(*digit - b'0');
    }
    Some(number)
}

/// The number of 64 bits that a word is, without leading zeros, where it isn't 0.
fn read_number(word: &[u8]) -> Option<u64>
    ensures found { IfSome result (IsNumber word.now) }
    ensures none { IsNone result → (n : ℕ) → IsNumber word.now n → ⊥ }
{
    // `parse` reads a leading `+` and leading zeros too, and all of them stand below `1`.
    if word.is_empty() || word[0] < b'1' {
        return None;
    }
    let Ok(text) = str::from_utf8(word) else {
        return None;
    };
    match text.parse::<u64>() {
        Ok(number) => Some(number),
        Err(_) => None,
    }
}

/// The number of 64 bits that a word is, without leading zeros.
fn read_number_or_zero(word: &[u8]) -> Option<u64>
    ensures found { IfSome result (IsNumberOrZero word.now) }
    ensures none { IsNone result → (n : ℕ) → IsNumberOrZero word.now n → ⊥ }
{
    if same_bytes(word, b"0") {
        return Some(0);
    }
    read_number(word)
}
