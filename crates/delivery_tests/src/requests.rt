//! The requests of events.
ghost use Rattle.std.specs.Prelude.{IsTrue};
ghost use Rattle.std.specs.Str.{is_utf8};
ghost use Rattle.media_rows.specs.Good.{if_there, is_hook_text};

use disk_trait::{Memory, Text};
use hook_delivery::{Outgoing, request_of};
use media_rows::{EventKind, EventList, EventRow, Hook, HookRow, is_utf8};
use std::alloc::Global;

const STORE: u128 = 0x00000000_0000_4000_8000_000000000001;

const FLOW: u128 = 0x00000000_0000_4000_8000_0000000000f1;

/// The worked request: a hook at port 9, and its event of a flow.
const WORKED: &[u8] =
    b"POST /h HTTP/1.1\r\nHost: 127.0.0.1:9\r\nContent-Type: application/json\r\nContent-Length: 182\r\nConnection: close\r\n\r\n{\"event\":{\"flow_id\":\"00000000-0000-4000-8000-0000000000f1\"},\"event_id\":\"00000000-0000-4000-8000-000000000001-2\",\"event_timestamp\":\"1970-01-01T00:00:00Z\",\"event_type\":\"flows/created\"}";

/// A hook of an address, with a key where it is named.
fn hook(alloc: Global, url: &str, key: Option<(&str, &str)>) -> Result<HookRow, Memory> {
    let (key_name, key_value) = match key {
        Some((name, value)) => (
            Some(Text::from_bytes(alloc, name.as_bytes())?),
            Some(Text::from_bytes(alloc, value.as_bytes())?),
        ),
        None => (None, None),
    };
    Ok(HookRow {
        serial: 1,
        hook: Hook {
            url: Text::from_bytes(alloc, url.as_bytes())?,
            events: EventList::new(alloc),
            key_name,
            key_value,
            flow_ids: None,
            source_ids: None,
        },
        failed: false,
    })
}

/// The request of the worked event to a hook of an address.
pub(crate) fn request(
    alloc: Global,
    url: &str,
    key: Option<(&str, &str)>,
) -> Result<Option<Outgoing>, Memory> {
    let row = hook(alloc, url, key)?;
    let event = EventRow {
        serial: 2,
        hook: 1,
        kind: EventKind::FlowCreated,
        subject: FLOW,
        range: None,
        moment: 0,
    };
    if is_good(&row) {
        request_of(alloc, &row, &event, STORE)
    } else {
        Ok(None)
    }
}

/// Whether the texts of a hook are UTF-8.
fn is_good(row: &HookRow) -> bool
    ensures { IsTrue result → IsTrue (is_hook_text row.now) }
{
    is_utf8(row.hook.url.bytes())
        && is_good_or_none(&row.hook.key_name)
        && is_good_or_none(&row.hook.key_value)
}

fn is_good_or_none(text: &Option<Text>) -> bool
    ensures { IsTrue result → IsTrue (if_there is_utf8 text.now) }
{
    match text {
        Some(text) => is_utf8(text.bytes()),
        None => true,
    }
}

/// The port and whether the request is this one.
fn goes_as(alloc: Global, url: &str, key: Option<(&str, &str)>, bytes: &[u8]) -> Option<u16> {
    match request(alloc, url, key) {
        Ok(Some(out)) if out.bytes.bytes() == bytes => Some(out.port),
        _ => None,
    }
}

#[test]
fn the_worked_event_goes_as_written(rt: HostRuntime) {
    let found = goes_as(rt.alloc(), "http://127.0.0.1:9/h", None, WORKED);
    assert_eq!(rt; found, Some(9));
}
