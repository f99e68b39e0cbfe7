//! Requests as bytes (RFC 9112), with no field but the length of a body.
ghost use Rattle.std.specs.Prelude.{◌≡◌, ◌++◌, OnOk};
ghost use Rattle.std.specs.Fmt.{decimal};
ghost use Rattle.generated_workload.specs.Workload.{bare_request, length_field, request, request_line};

use disk_trait::{Memory, Text};
use itoa::Buffer;

/// Adds a request with a body at the end.
pub(crate) fn append_request(
    method: &[u8],
    target: &[u8],
    body: &[u8],
    out: &mut Text,
) -> Result<(), Memory>
    ensures { OnOk result (out.new ≡ out.old ++ request method.now target.now body.now) }
{
    append_request_line(method, target, out)?;
    append_length_field(body, out)?;
    out.append(b"\r\n")?;
    out.append(body)
}

/// Adds a request without a body at the end.
pub(crate) fn append_bare(method: &[u8], target: &[u8], out: &mut Text) -> Result<(), Memory>
    ensures { OnOk result (out.new ≡ out.old ++ bare_request method.now target.now) }
{
    append_request_line(method, target, out)?;
    out.append(b"\r\n")
}

/// Adds a number in decimal at the end.
pub(crate) fn append_number(number: u64, out: &mut Text) -> Result<(), Memory>
    ensures { OnOk result (out.new ≡ out.old ++ decimal number) }
{
    let mut buffer = Buffer::new();
    out.append(buffer.format(number).as_bytes())
}

/// Adds the first line of a request at the end.
fn append_request_line(method: &[u8], target: &[u8], out: &mut Text) -> Result<(), Memory>
    ensures { OnOk result (out.new ≡ out.old ++ request_line method.now target.now) }
{
    out.append(method)?;
    out.append(b" ")?;
    out.append(target)?;
    out.append(b" HTTP/1.1\r\n")
}

/// Adds the field that says how many bytes a body has at the end.
fn append_length_field(body: &[u8], out: &mut Text) -> Result<(), Memory>
    ensures { OnOk result (out.new ≡ out.old ++ length_field body.now) }
{
    out.append(b"Content-Length: ")?;
    append_number(body.len() as u64, out)?;
    out.append(b"\r\n")
}
