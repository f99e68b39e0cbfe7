//! The head of a request (RFC 9112, sections 2 to 6).
ghost use Rattle.std.specs.Prelude.{◌≡◌, ◌++◌, OnOk, codes, decimal};
ghost use Rattle.std.specs.List.{list_all};
ghost use Rattle.hook_delivery.specs.Posting.{body_lines, field_line, host_and_port, is_field, is_printable, key_line, last_lines, port_part, query_part, request_head, request_line};

use crate::address::host_name;
use disk_trait::{Memory, Text};
use httparse::is_token;
use itoa::Buffer;
use media_rows::Hook;
use url::Url;

/// Adds the head of a request with a body of `size` bytes.
#[tactic(auto, unfolding(crate::specs::Posting::request_head))]
pub(crate) fn append_head(out: &mut Text, url: &Url, hook: &Hook, size: usize) -> Result<(), Memory>
    ensures { OnOk result (out.new ≡ out.old ++ request_head url.now hook.now size) }
{
    append_request_line(out, url)?;
    append_host(out, url)?;
    append_body_lines(out, size)?;
    append_key(out, &hook.key_name, &hook.key_value)?;
    append_last_lines(out)
}

/// Adds the lines that tell of a body of `size` bytes.
#[tactic(auto, unfolding(crate::specs::Posting::body_lines))]
fn append_body_lines(out: &mut Text, size: usize) -> Result<(), Memory>
    ensures { OnOk result (out.new ≡ out.old ++ body_lines size) }
{
    append_field(out, b"Content-Type", b"application/json")?;
    append_length(out, size)
}

fn append_length(out: &mut Text, size: usize) -> Result<(), Memory>
    ensures { OnOk result (out.new ≡ out.old ++ field_line (codes "Content-Length") (decimal size)) }
{
    let mut buffer = Buffer::new();
    let digits = buffer.format(size);
    append_field(out, b"Content-Length", digits.as_bytes())
}

/// Adds the line by which the connection ends behind the answer, and the empty line.
#[tactic(auto, unfolding(crate::specs::Posting::last_lines))]
fn append_last_lines(out: &mut Text) -> Result<(), Memory>
    ensures { OnOk result (out.new ≡ out.old ++ last_lines) }
{
    append_field(out, b"Connection", b"close")?;
    out.append(b"\r\n")
}

/// Adds the line that asks for the path and the query of an address.
#[tactic(auto, unfolding(crate::specs::Posting::request_line))]
fn append_request_line(out: &mut Text, url: &Url) -> Result<(), Memory>
    ensures { OnOk result (out.new ≡ out.old ++ request_line url.now) }
{
    out.append(b"POST ")?;
    out.append(url.path().as_bytes())?;
    append_query(out, url)?;
    out.append(b" HTTP/1.1\r\n")
}

/// Adds the query of an address behind `?`, where it has one.
fn append_query(out: &mut Text, url: &Url) -> Result<(), Memory>
    ensures { OnOk result (out.new ≡ out.old ++ query_part url.now.query) }
{
    match url.query() {
        Some(query) => {
            out.append(b"?")?;
            out.append(query.as_bytes())
        }
        None => Ok(()),
    }
}

/// Adds the field of the host.
#[tactic(auto, unfolding(crate::specs::Posting::field_line))]
fn append_host(out: &mut Text, url: &Url) -> Result<(), Memory>
    ensures { OnOk result (out.new ≡ out.old ++ field_line (codes "Host") (host_and_port url.now)) }
{
    out.append(b"Host: ")?;
    out.append(host_name(url).as_bytes())?;
    append_port(out, url)?;
    out.append(b"\r\n")
}

/// Adds the port of an address behind `:`, where one is named.
fn append_port(out: &mut Text, url: &Url) -> Result<(), Memory>
    ensures { OnOk result (out.new ≡ out.old ++ port_part url.now.port) }
{
    match url.port() {
        Some(port) => {
            let mut buffer = Buffer::new();
            out.append(b":")?;
            out.append(buffer.format(port).as_bytes())
        }
        None => Ok(()),
    }
}

/// Adds the line of a field.
#[tactic(auto, unfolding(crate::specs::Posting::field_line))]
fn append_field(out: &mut Text, name: &[u8], value: &[u8]) -> Result<(), Memory>
    ensures { OnOk result (out.new ≡ out.old ++ field_line name.now value.now) }
{
    out.append(name)?;
    out.append(b": ")?;
    out.append(value)?;
    out.append(b"\r\n")
}

/// Adds the line of a hook's key, where its name and its value are there and can stand in a head.
#[tactic(auto, unfolding(crate::specs::Posting::key_line))]
fn append_key(out: &mut Text, name: &Option<Text>, value: &Option<Text>) -> Result<(), Memory>
    ensures { OnOk result (out.new ≡ out.old ++ key_line name.now value.now) }
{
    match (name, value) {
        (Some(name), Some(value)) if is_field(name.bytes(), value.bytes()) => {
            append_field(out, name.bytes(), value.bytes())
        }
        _ => Ok(()),
    }
}

/// Whether a name and a value can stand in a head.
fn is_field(name: &[u8], value: &[u8]) -> bool
    ensures { result ≡ is_field name.now value.now }
{
    is_token(name) && are_printable(value)
}

fn are_printable(value: &[u8]) -> bool
    ensures { result ≡ list_all is_printable value.now }
{
    value.iter().all(|byte| is_printable(*byte))
}

/// Whether a byte is one from the space to `~`.
fn is_printable(byte: u8) -> bool
    ensures { result ≡ is_printable byte }
{
    b' ' <= byte && byte <= b'~'
}
