//! A law of answers.
ghost use Rattle.tams_answers.specs.Answers.{MediaFollows};

/// The bytes that follow a response are those that the machine's answer has behind it.
pub fn media_follows()
    ensures { MediaFollows }
{}
