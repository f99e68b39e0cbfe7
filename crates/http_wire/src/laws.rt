//! Laws of what a connection's bytes spell. By them a feed's answers, given piece by piece, are those of the
//! whole list of bytes.
ghost use Rattle.http_wire.specs.Agreeing.{AgreesAtStart, AgreesOnBody, AgreesOnHead, AgreesOnPush, AgreesOnRefusal, AgreesOnWait, AgreesOnWhole};
ghost use Rattle.http_wire.specs.Feeds.{HeadHasRoom, WaitsWithRoom};
ghost use Rattle.http_wire.specs.HeadLines.{ChunkLinesNameSizes, HeadsEndAtEmptyLines, LinesEndAtFeeds, TrailersEndAtEmptyLines};
ghost use Rattle.http_wire.specs.Hearing.{EndsLast, EndsLastMedia, HearsOn, HearsOnMedia, IsOneHearing, StandsAlone, StaysDecided, StaysRefused};

/// A list of bytes spells one thing. What stands at the front of some bytes stands there whatever follows,
/// and of its own bytes, and behind a request the rest is heard as a list of its own.
pub fn hearing_is_one()
    ensures one { IsOneHearing }
    ensures decided { StaysDecided }
    ensures alone { StandsAlone }
    ensures refused { StaysRefused }
    ensures on { HearsOn }
    ensures on_media { HearsOnMedia }
    ensures last { EndsLast }
    ensures last_media { EndsLastMedia }
{}

/// What a feed gave and keeps agrees with all bytes that it took: at first, and behind each of its calls.
pub fn feed_agrees()
    ensures start { AgreesAtStart }
    ensures push { AgreesOnPush }
    ensures more { AgreesOnWait }
    ensures refused { AgreesOnRefusal }
    ensures whole { AgreesOnWhole }
    ensures head { AgreesOnHead }
    ensures body { AgreesOnBody }
{}

/// A feed that waits takes a byte more: behind `More`, and behind a head once all bytes were handed on.
pub fn a_byte_more_is_taken()
    ensures more { WaitsWithRoom }
    ensures head { HeadHasRoom }
{}

/// What the places of a look at bytes come to, by whole lines: a head ends exactly behind the first empty
/// line that follows a line which isn't empty, a trailer behind its first empty line, and a line behind
/// its first LF; and a chunk's line names the size of its digits.
pub fn lines_are_whole()
    ensures heads { HeadsEndAtEmptyLines }
    ensures trailers { TrailersEndAtEmptyLines }
    ensures lines { LinesEndAtFeeds }
    ensures sizes { ChunkLinesNameSizes }
{}
