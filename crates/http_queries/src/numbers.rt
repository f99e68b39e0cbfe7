//! Numbers, truth values and keys that the values of a query spell.
ghost use Rattle.std.specs.Prelude.{◌≡◌, ◌≤◌, IfSome, ◌==◌, ◌||◌, not, nat_eq, nat_le, bytes_eq, codes, length};
ghost use Rattle.std.specs.Char.{is_ascii_digit};
ghost use Rattle.std.specs.List.{list_all, starts_with};
ghost use Rattle.media_rows.specs.Views.{id_key};
ghost use Rattle.http_queries.specs.Numbers.{below_zero, from_zero, id_key_in, is_plain_number, limit_in, magnitude_in, point_in, truth_in};

use http_wire::read_length;
use media_rows::read_id;
use std::str;

/// The most items of a page.
pub(crate) const MOST_ITEMS: u64 = 1_000;

/// The items of a page where no number is asked for.
pub(crate) const USUAL_ITEMS: u64 = 100;

/// 2^127, by which an id's key lies below the id.
const HALF: u128 = 1 << 127;

/// Whether a text is this word.
pub(crate) fn is_word(text: &[u8], word: &str) -> bool
    ensures { result ≡ bytes_eq text.now word.now }
{
    text == word.as_bytes()
}

/// The limit that 1 to 19 digits write, unless it is 0. One above 1,000 counts as 1,000.
pub(crate) fn read_limit(text: &[u8]) -> Option<u64>
    ensures value { result ≡ limit_in text.now }
    ensures least { IfSome result (λ limit. 1 ≤ limit) }
{
    let limit = read_length(text)?;
    if limit == 0 {
        None
    } else {
        Some(limit.min(MOST_ITEMS))
    }
}

/// The truth value of a name.
pub(crate) fn read_truth(text: &[u8]) -> Option<bool>
    ensures { result ≡ truth_in text.now }
{
    if is_word(text, "true") {
        Some(true)
    } else if is_word(text, "false") {
        Some(false)
    } else {
        None
    }
}

/// Whether a text is digits without a leading zero.
fn is_plain_number(text: &[u8]) -> bool
    ensures { result ≡ is_plain_number text.now }
{
    has_byte(text) && are_digits(text) && has_no_leading_zero(text)
}

fn has_byte(text: &[u8]) -> bool
    ensures { result ≡ nat_le 1 (length text.now) }
{
    1 <= text.len()
}

fn are_digits(text: &[u8]) -> bool
    ensures { result ≡ list_all is_ascii_digit text.now }
{
    text.iter().all(|byte| is_digit(*byte))
}

fn is_digit(byte: u8) -> bool
    ensures { result ≡ is_ascii_digit byte }
{
    byte.is_ascii_digit()
}

fn has_no_leading_zero(text: &[u8]) -> bool
    ensures { result ≡ (length text.now == 1 || not (starts_with nat_eq text.now (codes "0"))) }
{
    text.len() == 1 || !text.starts_with(b"0")
}

/// The number that digits without a leading zero write, where it fits 128 bits.
#[tactic(auto, using(crate::proofs::Magnitudes::parsed, crate::proofs::Magnitudes::is_utf8_number))]
fn read_magnitude(text: &[u8]) -> Option<u128>
    ensures { result ≡ magnitude_in text.now }
{
    if !is_plain_number(text) {
        return None;
    }
    let Ok(digits) = str::from_utf8(text) else {
        return None;
    };
    digits.parse::<u128>().ok()
}

/// A point of a timeline, in decimal, with `-` exactly where it is below zero.
pub(crate) fn read_point(text: &[u8]) -> Option<i128>
    ensures { result ≡ point_in text.now }
{
    if text.starts_with(b"-") {
        below_zero(read_magnitude(&text[1..])?)
    } else {
        from_zero(read_magnitude(text)?)
    }
}

fn from_zero(n: u128) -> Option<i128>
    ensures { result ≡ from_zero n }
{
    if n < HALF { Some(n as i128) } else { None }
}

fn below_zero(n: u128) -> Option<i128>
    ensures { result ≡ below_zero n }
{
    if 1 <= n && n <= HALF {
        Some(-((n - 1) as i128) - 1)
    } else {
        None
    }
}

/// The key of the id that a text spells: the id less 2^127.
pub(crate) fn read_id_key(text: &[u8]) -> Option<i128>
    ensures { result ≡ id_key_in text.now }
{
    Some(id_key(read_id(text)?))
}

fn id_key(id: u128) -> i128
    ensures { result ≡ id_key id }
{
    if id < HALF {
        id as i128 - i128::MAX - 1
    } else {
        (id - HALF) as i128
    }
}
