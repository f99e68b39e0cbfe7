//! The ids and names in a path.
ghost use Rattle.std.specs.Prelude.{◌≡◌, ◌++◌, ◌&&◌, IfOk, IsTrue, codes, length, nat_le, option_map};
ghost use Rattle.std.specs.Str.{is_utf8};
ghost use Rattle.media_rows.specs.Good.{if_there};
ghost use Rattle.media_rows.specs.Ids.{id_text, is_object_id};
ghost use Rattle.http_routes.specs.Named.{decoded_at, named_id, named_object, named_request, request_serial, serial_of, stripped, tag_named};

use crate::path::piece_at;
use disk_trait::{Memory, Text};
use http_wire::read_length;
use media_rows::{is_object_id, is_utf8, print_id, read_id};
use percent_encoding::percent_decode;
use std::alloc::Global;

/// The id stands behind so many slashes.
const ID_PLACE: usize = 2;

/// A tag's name stands behind so many slashes.
const NAME_PLACE: usize = 4;

/// Bytes of the longest name of a tag.
const LONGEST_TAG_NAME: usize = 128;

/// The piece of a path behind so many slashes, with its escapes undone (RFC 3986, section 2.1).
fn decoded_at(alloc: Global, path: &[u8], place: usize) -> Result<Text, Memory>
    ensures { IfOk result (λ text. text ≡ decoded_at place path.now) }
{
    let mut text = Vec::new(alloc);
    percent_decode(piece_at(path, place)).append_to(&mut text)?;
    Ok(Text::from_vec(text))
}

/// The id of a source or a flow that a path names, where its text spells one.
pub fn read_named_id(alloc: Global, path: &[u8]) -> Result<Option<u128>, Memory>
    ensures { IfOk result (λ found. found ≡ named_id path.now) }
{
    let text = decoded_at(alloc, path, ID_PLACE)?;
    Ok(read_id(text.bytes()))
}

/// The id of the object that a path names, where its text has the form of one.
pub fn read_named_object(alloc: Global, path: &[u8]) -> Result<Option<Text>, Memory>
    ensures found { IfOk result (λ found. found ≡ named_object path.now) }
    ensures good { IfOk result (λ found. IsTrue (if_there is_object_id found)) }
{
    let text = decoded_at(alloc, path, ID_PLACE)?;
    if is_object_id(text.bytes()) {
        Ok(Some(text))
    } else {
        Ok(None)
    }
}

/// The name of the tag that a path names, where it is 1 to 128 bytes of UTF-8.
pub fn read_named_tag(alloc: Global, path: &[u8]) -> Result<Option<Text>, Memory>
    ensures found { IfOk result (λ found. found ≡ tag_named path.now) }
    ensures good { IfOk result (λ found. IsTrue (if_there is_utf8 found)) }
{
    let name = decoded_at(alloc, path, NAME_PLACE)?;
    if has_tag_length(name.bytes()) && is_utf8(name.bytes()) {
        Ok(Some(name))
    } else {
        Ok(None)
    }
}

fn has_tag_length(name: &[u8]) -> bool
    ensures { result ≡ (nat_le 1 (length name.now) && nat_le (length name.now) LONGEST_TAG_NAME) }
{
    1 <= name.len() && name.len() <= LONGEST_TAG_NAME
}

/// The serial of the delete request that a path names, where its id is one of this store.
pub fn read_named_request(alloc: Global, store: u128, path: &[u8]) -> Result<Option<u64>, Memory>
    ensures { IfOk result (λ found. found ≡ named_request store path.now) }
{
    let text = decoded_at(alloc, path, ID_PLACE)?;
    let prefix = request_prefix(alloc, store)?;
    match stripped(prefix.bytes(), text.bytes()) {
        Some(digits) => Ok(read_serial(digits)),
        None => Ok(None),
    }
}

/// What the id of each delete request of a store begins with.
fn request_prefix(alloc: Global, store: u128) -> Result<Text, Memory>
    ensures { IfOk result (λ text. text ≡ id_text store ++ codes "-") }
{
    let mut prefix = print_id(alloc, store)?;
    prefix.append(b"-")?;
    Ok(prefix)
}

/// What stands behind a text, where another one begins with it.
fn stripped<'t>(prefix: &[u8], text: &'t [u8]) -> Option<&'t [u8]>
    ensures { option_map (λ rest. rest.now) result ≡ stripped prefix.now text.now }
{
    if text.starts_with(prefix) {
        Some(&text[prefix.len()..])
    } else {
        None
    }
}

/// The serial that 1 to 19 digits write, of which the first isn't 0.
fn read_serial(text: &[u8]) -> Option<u64>
    ensures { result ≡ serial_of text.now }
{
    if text.starts_with(b"0") {
        None
    } else {
        read_length(text)
    }
}
