//! Changes: what a journal's record says of the library.
use crate::flow::FlowBody;
use crate::hook::Hook;
use crate::object::Digest;
use crate::part::Part;
use crate::segment::PostList;
use disk_trait::{Text, TextList};
use time_range::TimeRange;

/// A change at a moment. Serials stand in no change: they follow from the library's next one.
#[derive(Drop)]
pub enum Change {
    PutFlow {
        moment: u64,
        flow: FlowBody,
    },
    SetFlow {
        moment: u64,
        flow: u128,
        part: Part,
    },
    SetSource {
        moment: u64,
        source: u128,
        part: Part,
    },
    DropFlow {
        moment: u64,
        flow: u128,
    },
    Allocate {
        moment: u64,
        flow: u128,
        objects: TextList,
    },
    /// The digest is missing exactly in what was read from a store of form 1.
    Store {
        moment: u64,
        object: Text,
        start_block: u64,
        length: u64,
        digest: Option<Digest>,
    },
    /// The segments stand in a list whose `single` is false.
    AddSegments {
        moment: u64,
        flow: u128,
        segments: PostList,
    },
    CutSegments {
        moment: u64,
        flow: u128,
        range: TimeRange,
    },
    AskDelete {
        moment: u64,
        flow: u128,
        range: TimeRange,
        delete_flow: bool,
    },
    DeleteStep {
        moment: u64,
    },
    SweepStep {
        moment: u64,
    },
    PutHook {
        moment: u64,
        hook: Hook,
    },
    DropHook {
        moment: u64,
        url: Text,
    },
    /// The event of this serial was delivered to its hook.
    Delivered {
        moment: u64,
        event: u64,
    },
}
