//! The journal of the store: the file's header, the rows that a half begins with, and the records
//! behind them. Each record is on the disk before its gate is opened. It knows nothing of what rows and
//! payloads mean.
#![tactic(auto)]

mod checkpoint;
mod fault;
mod form;
mod format;
mod frame;
mod header;
mod journal;
mod open;
mod record;
mod scan;
mod window;
mod write;

pub use crate::fault::{AppendFault, FormatFault, JournalFault};
pub use crate::format::format_device;
pub use crate::frame::Frame;
pub use crate::header::{BLOCK, HALVES, Header, MOST_BLOCKS, MOST_HALF, SELECTOR};
pub use crate::journal::Journal;
pub use crate::open::{Opened, one_reading, open_journal};
pub use crate::record::{Record, RecordList};
