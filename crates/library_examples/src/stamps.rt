//! The stamps and the rows that changes make.
ghost use Rattle.library_examples.specs.WorkedStamps.{FlowStamps, IdleMoments, PartsAreSet, RequestStamps, RowsAreMade, SourceStamps};

/// A put of a kept flow leaves when it was made and when its segments changed; a part changes when
/// it was last said anew, and segments change their own stamp. Other flows keep theirs, also where
/// an entry leaves them.
pub fn flow_stamps()
    ensures { FlowStamps }
{}

/// A source keeps its stamps while its flows change, and one that comes has the moment twice.
pub fn source_stamps()
    ensures { SourceStamps }
{}

/// An object is idle since its allocation, its storing, and the loss of its last reference; the
/// loss of another one changes nothing.
pub fn idle_moments()
    ensures { IdleMoments }
{}

/// A request has the moment twice; a step, and a flow that goes, set when it was last worked off.
pub fn request_stamps()
    ensures { RequestStamps }
{}

/// Each row that comes has the next serial, and several of one change have them in their order; the
/// next serial then stands behind them.
pub fn rows_are_made()
    ensures { RowsAreMade }
{}

/// One part is set, and all else that is said of the flow stays. Tags stand by name.
pub fn parts_are_set()
    ensures { PartsAreSet }
{}
