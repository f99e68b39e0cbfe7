//! Addresses of media objects.
ghost use Rattle.std.specs.Prelude.{◌≡◌, ◌++◌, IfOk, string_bytes};
ghost use Rattle.json_replies.specs.Addresses.{media_address};
ghost use Rattle.json_replies.specs.Shapes.{string_value};

use crate::json_text::JsonText;
use crate::shows::Shows;
use disk_trait::{Memory, Text};
use percent_encoding::{AsciiSet, NON_ALPHANUMERIC, ascii_set, percent_encode};
use std::alloc::Global;
use std::str;

/// The bytes of ASCII that are escaped in an address: all but the unreserved ones of RFC 3986,
/// section 2.3.
const ESCAPED: AsciiSet = ascii_set!(
    NON_ALPHANUMERIC
        .remove(b'-')
        .remove(b'.')
        .remove(b'_')
        .remove(b'~')
);

/// Objects by their addresses, behind the base of the store.
#[derive(Drop)]
pub(crate) struct Addresses<'a> {
    pub(crate) base: &'a Text,
}

impl<'a> Shows<Text> for Addresses<'a> {
    ghost shown = { λ a object. string_value (media_address a.base.now object) };

    fn show(&self, alloc: Global, object: &Text, out: &mut JsonText) -> Result<(), Memory> {
        let address = media_address(alloc, self.base.bytes(), object.bytes())?;
        out.string(address.as_str())
    }
}

/// The address of the bytes of an object, behind the base of the store: `/media/` and the object's id, each byte of which
/// that isn't unreserved is escaped (RFC 3986, section 2.1).
#[tactic(auto, unfolding(crate::specs::Addresses::media_address))]
pub fn media_address(alloc: Global, base: &[u8], object: &[u8]) -> Result<String, Memory>
    ensures { IfOk result
        (λ address. string_bytes address ≡ media_address base.now object.now) }
{
    let Ok(base) = str::from_utf8(base) else {
        return Err(Memory);
    };
    let mut address = String::new(alloc);
    address.push_str(base)?;
    address.push_str("/media/")?;
    percent_encode(object, ESCAPED).append_to(&mut address)?;
    Ok(address)
}
