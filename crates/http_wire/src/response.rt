//! Responses as bytes (RFC 9112, sections 4 to 6).
ghost use Rattle.std.specs.Prelude.{◌≡◌, ◌≤◌, ◌++◌, [], IfOk, IsSome, OnOk, unwrap_or};
ghost use Rattle.std.specs.List.{flat_map};
ghost use Rattle.http.specs.StatusCode.{reason_phrase};
ghost use Rattle.http_wire.specs.Response.{field_line, response, status_line};

use disk_trait::{Listed, Memory, Text};
use http::StatusCode;
use itoa::Buffer;
use std::alloc::Global;

/// A field of a head: its name and its value.
#[derive(Drop)]
pub struct HeadField {
    pub name: Text,
    pub value: Text,
}

/// The fields of a head in their order.
pub type FieldList = Listed<HeadField>;

/// The bytes of a response: the status line with the phrase of `http`, the fields as they stand in the list,
/// an empty line, and the body unless the head stands alone. The caller names the body's length in a field.
pub fn write_response(
    alloc: Global,
    status: u16,
    fields: &FieldList,
    body: &[u8],
    head_only: bool,
) -> Result<Text, Memory>
    requires low { 200 ≤ status }
    requires high { status ≤ 599 }
    requires known { IsSome (reason_phrase status) }
    ensures { IfOk result (λ text. text ≡ response status fields.now body.now head_only) }
{
    let mut text = Text::new(alloc);
    append_status_line(&mut text, status)?;
    append_fields(&mut text, fields.items())?;
    text.append(b"\r\n")?;
    if !head_only {
        text.append(body)?;
    }
    Ok(text)
}

/// Adds the status line.
fn append_status_line(text: &mut Text, status: u16) -> Result<(), Memory>
    requires low { 200 ≤ status }
    requires high { status ≤ 599 }
    ensures { OnOk result (text.new ≡ text.old ++ status_line status) }
{
    let mut buffer = Buffer::new();
    text.append(b"HTTP/1.1 ")?;
    text.append(buffer.format(status).as_bytes())?;
    text.append(b" ")?;
    text.append(phrase(status).as_bytes())?;
    text.append(b"\r\n")?;
    Ok(())
}

/// The phrase of a status, or an empty one where it has none.
fn phrase(status: u16) -> &'static str
    requires low { 200 ≤ status }
    requires high { status ≤ 599 }
    ensures { result.now ≡ unwrap_or (reason_phrase status) [] }
{
    match StatusCode::from_u16(status) {
        Ok(code) => code.canonical_reason().unwrap_or(""),
        Err(_) => "",
    }
}

/// Adds the lines of fields.
fn append_fields(text: &mut Text, fields: &[HeadField]) -> Result<(), Memory>
    ensures { OnOk result (text.new ≡ text.old ++ flat_map field_line fields.now) }
{
    for field in fields {
        append_field(text, field)?;
    }
    Ok(())
}

/// Adds the line of a field.
fn append_field(text: &mut Text, field: &HeadField) -> Result<(), Memory>
    ensures { OnOk result (text.new ≡ text.old ++ field_line field.now) }
{
    text.append(field.name.bytes())?;
    text.append(b": ")?;
    text.append(field.value.bytes())?;
    text.append(b"\r\n")?;
    Ok(())
}
