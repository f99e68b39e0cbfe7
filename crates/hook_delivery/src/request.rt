//! The request of an event.
ghost use Rattle.std.specs.Prelude.{◌≡◌, IfOk, IsTrue};
ghost use Rattle.media_rows.specs.Good.{is_event_text, is_hook_text};
ghost use Rattle.hook_delivery.specs.Posting as spec;
ghost use Rattle.hook_delivery.specs.Posting.{HasTarget};

use crate::address::{port_of, read_address};
use crate::event_text::event_text;
use crate::request_head::append_head;
use disk_trait::{Memory, Text};
use media_rows::{EventRow, Hook, HookRow};
use std::alloc::Global;
use url::Url;

/// A request that goes to a port of this machine.
#[derive(Drop)]
pub struct Outgoing {
    pub port: u16,
    pub bytes: Text,
}

/// The request by which an event goes to its hook, and `None` exactly where the hook's address isn't one of
/// scheme http with the host `127.0.0.1` or `localhost` (RFC 9112, sections 2 to 6). `store` is the store's id.
///
/// Both rows are those of a good library: the hook's texts are UTF-8, and the event's moment lies in the years
/// up to 9999. The one error is want of memory.
pub fn request_of(
    alloc: Global,
    hook: &HookRow,
    event: &EventRow,
    store: u128,
) -> Result<Option<Outgoing>, Memory>
    requires hook { IsTrue (is_hook_text hook.now) }
    requires event { IsTrue (is_event_text event.now) }
    ensures request { IfOk result (λ request. request ≡ spec.request_of store hook.now event.now) }

    // No byte of the address ends the first line before its end.
    ensures target { IfOk result (λ _. HasTarget hook.now.hook.url) }
{
    match read_address(alloc, &hook.hook.url)? {
        Some(url) => Ok(Some(request_to(alloc, &url, &hook.hook, event, store)?)),
        None => Ok(None),
    }
}

/// The request to an address.
fn request_to(
    alloc: Global,
    url: &Url,
    hook: &Hook,
    event: &EventRow,
    store: u128,
) -> Result<Outgoing, Memory>
    requires { IsTrue (is_event_text event.now) }
    ensures { IfOk result (λ request. request ≡ spec.request_to store hook.now event.now url.now) }
{
    let body = event_text(alloc, event, store)?;
    let mut bytes = Text::new(alloc);
    append_head(&mut bytes, url, hook, body.bytes().len())?;
    bytes.append(body.bytes())?;
    Ok(Outgoing {
        port: port_of(url),
        bytes,
    })
}
