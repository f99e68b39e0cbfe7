//! Laws over all libraries, requests and replies.
ghost use Rattle.reply_laws.specs.Asks.{AsksAreGood};
ghost use Rattle.reply_laws.specs.MediaPuts.{MediaAsksAreMedia, MediaPutsAsk};
ghost use Rattle.reply_laws.specs.Refusals.{AskRefusalsHaveTexts, WireRefusalsHaveTexts};
ghost use Rattle.reply_laws.specs.Replies.{AnswersHaveTexts, FittedHaveTexts, MediaAnswersHaveTexts};

/// What a request asks for, where its texts are good, is good for each library, and asks for at most 1,000
/// objects.
pub fn asks_are_good()
    ensures { AsksAreGood }
{}

/// What a good library answers to such a command at a moment has its texts. An outcome that has them keeps
/// them where its change doesn't fit the journal.
pub fn answers_have_texts()
    ensures answers { AnswersHaveTexts }
    ensures fitted { FittedHaveTexts }
{}

/// What is answered to the bytes of an object, and to a question of them, has its texts.
pub fn media_answers_have_texts()
    ensures { MediaAnswersHaveTexts }
{}

/// Each refusal of what a request asks for has its texts, and so has each refusal of the wire.
pub fn ask_refusals_have_texts()
    ensures asks { AskRefusalsHaveTexts }
    ensures wire { WireRefusalsHaveTexts }
{}

/// The wire and the routes mean the same by a media PUT: what asks for a put of an object's bytes is one of the
/// wire, and each one of the wire asks for such a put or is refused, whatever its body is.
pub fn media_puts_agree()
    ensures asks { MediaAsksAreMedia }
    ensures puts { MediaPutsAsk }
{}
