//! What a service concludes from what was heard.
ghost use Rattle.request_hearing.specs.Laws.{MediaIsOpened, MediaUnsaidIsCut, RefusalsAreSteps, UnsaidIsCut, WaitingIsCut, WaitingIsUnfinished, WaitingOwesNothing};

/// What the wire refuses, and what is cut, is a step of its connection.
pub fn heard_are_steps()
    ensures refused { RefusalsAreSteps }
    ensures cut { WaitingIsCut }
    ensures unfinished { WaitingIsUnfinished }
    ensures owes { WaitingOwesNothing }
    ensures unsaid { UnsaidIsCut }
    ensures media_unsaid { MediaUnsaidIsCut }
{}

/// The head of a media PUT is a request by what was heard of its body.
pub fn media_is_opened()
    ensures { MediaIsOpened }
{}
