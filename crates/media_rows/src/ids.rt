//! Ids in text: those of sources, flows and the store, and those of media objects.
ghost use Rattle.std.specs.Prelude.{◌≡◌, ◌≤◌, ◌&&◌, IfOk, Some, length, nat_le};
ghost use Rattle.std.specs.List.{list_all};
ghost use Rattle.uuid.specs.Text.{hyphenated_text, lower};
ghost use Rattle.media_rows.specs.Ids.{id_of, id_text, is_id_byte, is_object_id};

use disk_trait::{Memory, Text};
use std::alloc::Global;
use uuid::Uuid;
use uuid::fmt::Hyphenated;

/// Bytes of the longest id of an object.
const LONGEST_OBJECT_ID: usize = 200;

/// The id that a text spells, in any of the four forms of a UUID's text (RFC 9562, section 4, and
/// its forms in braces, as a URN and without hyphens).
pub fn read_id(text: &[u8]) -> Option<u128>
    ensures { result ≡ id_of text.now }
{
    match Uuid::try_parse_ascii(text) {
        Ok(id) => Some(id.as_u128()),
        Err(_) => None,
    }
}

/// The hyphenated text of an id in lower case (RFC 9562, section 4).
pub fn print_id(alloc: Global, id: u128) -> Result<Text, Memory>
    ensures text { IfOk result (λ text. text ≡ id_text id) }
    ensures reads_back { IfOk result (λ text. id_of text ≡ Some id) }
{
    let mut buffer = Uuid::encode_buffer();
    let spelled = Uuid::from_u128(id).hyphenated();
    let printed = write_id(&spelled, &mut buffer);
    Text::from_bytes(alloc, printed.as_bytes())
}

/// Writes the text of an id in lower case to the start of a buffer of at least 36 bytes.
fn write_id<'b>(id: &Hyphenated, buffer: &'b mut [u8]) -> &'b str
    requires { 36 ≤ length buffer.old }
    ensures { result.now ≡ hyphenated_text lower id.now }
{
    id.encode_lower(buffer)
}

/// Whether a text can be an object's id: 1 to 200 bytes from `!` to `~`. It is our own rule.
pub fn is_object_id(text: &[u8]) -> bool
    ensures { result ≡ is_object_id text.now }
{
    has_object_id_length(text) && are_id_bytes(text)
}

fn has_object_id_length(text: &[u8]) -> bool
    ensures { result ≡ (nat_le 1 (length text.now) && nat_le (length text.now) LONGEST_OBJECT_ID) }
{
    1 <= text.len() && text.len() <= LONGEST_OBJECT_ID
}

fn are_id_bytes(text: &[u8]) -> bool
    ensures { result ≡ list_all is_id_byte text.now }
{
    text.iter().all(|byte| is_id_byte(*byte))
}

fn is_id_byte(byte: u8) -> bool
    ensures { result ≡ is_id_byte byte }
{
    b'!' <= byte && byte <= b'~'
}
