//! The edge of the store: the site that it serves (a device with links to its peers), the clock that
//! it reads and the sink that its notes go to. Each is a trait with a written meaning, beside a fake
//! in memory that meets it in full, and a real one that counts its faults and tells nothing of content.
#![tactic(auto)]

mod aside;
mod clock;
mod connection;
mod dial_site;
mod exchange;
mod fault;
mod file_site;
mod head_end;
mod heard_piece;
mod host_clock;
mod host_sink;
mod limits;
mod line;
mod list_clock;
mod memory_sink;
mod memory_site;
mod net_site;
mod pace;
mod peer_list;
mod placed_dial;
mod progress;
mod ready;
mod sink;
mod site;
mod span;
mod stopwatch;
mod store_file;
mod streams;
mod tally;

pub use crate::aside::Aside;
pub use crate::clock::{Clock, LAST_MOMENT};
pub use crate::dial_site::DialSite;
pub use crate::fault::{FileFailed, LinkFailed, SinkFailed};
pub use crate::file_site::FileSite;
pub use crate::host_clock::HostClock;
pub use crate::host_sink::HostSink;
pub use crate::list_clock::ListClock;
pub use crate::memory_sink::MemorySink;
pub use crate::memory_site::MemorySite;
pub use crate::net_site::NetSite;
pub use crate::peer_list::PeerList;
pub use crate::sink::Sink;
pub use crate::site::{Caller, Site};
pub use crate::store_file::StoreFile;
pub use crate::streams::{is_error, is_output};
