//! The commands of a store: `format`, `check`, `migrate`, `work`, `deliver`, `replay`, `serve` and `manifest`, and `workload`, each
//! with the record of its ends; and what those that open a store share.
#![tactic(auto)]

mod checking;
mod delivering;
mod formatting;
mod generating;
mod laws;
mod manifesting;
mod migrating;
mod opening;
mod premises;
mod probing;
mod serving;
mod still_clock;
mod working;

pub use crate::checking::check;
pub use crate::delivering::deliver;
pub use crate::formatting::format;
pub use crate::generating::workload;
pub use crate::laws::fresh_files_stand;
pub use crate::manifesting::manifest;
pub use crate::migrating::migrate;
pub use crate::opening::{line_counts, opening_outcome};
pub use crate::premises::site_over;
pub use crate::serving::{replay, serve};
pub use crate::working::work;
