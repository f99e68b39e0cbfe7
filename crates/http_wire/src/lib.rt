//! HTTP/1.1 on the wire (RFC 9112): the requests that a connection's bytes spell, in whatever pieces they
//! come, and responses as bytes. What a request asks for, and what it is answered, is left to the callers.
#![tactic(auto)]

mod chunk_line;
mod chunks;
mod feed;
mod fields;
mod framing;
mod front;
mod head;
mod kept;
mod laws;
mod lines;
mod response;
mod seek;
mod stage;

pub use crate::feed::Feed;
pub use crate::fields::read_length;
pub use crate::framing::WireFault;
pub use crate::head::{FeedSpan, MethodKind};
pub use crate::laws::{a_byte_more_is_taken, feed_agrees, hearing_is_one, lines_are_whole};
pub use crate::lines::{LinePlace, Looked, look};
pub use crate::response::{FieldList, HeadField, write_response};
pub use crate::stage::{FeedStep, Head};
