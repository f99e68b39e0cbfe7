//! Laws of what a peer's bytes say, and of the text of an event.
ghost use Rattle.hook_delivery.specs.Exchanging.{IsOneAnswer};
ghost use Rattle.hook_delivery.specs.Judging.{IsOneVerdict};
ghost use Rattle.hook_delivery.specs.Posting.{EventKeysRise, EventsReadBack};

/// Bytes that came, and whether more come, have one verdict.
pub fn one_verdict()
    ensures { IsOneVerdict }
{}

/// A connection had one answer to a request, so that an exchange ends in just this one.
pub fn one_answer()
    ensures { IsOneAnswer }
{}

/// The text of an event is JSON (RFC 8259) that reads back as its tokens, with keys in byte order.
pub fn events_read_back()
    ensures reads_back { EventsReadBack }
    ensures keys { EventKeysRise }
{}
