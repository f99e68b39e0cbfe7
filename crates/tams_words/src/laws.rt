//! Laws of words. Each function does nothing.
ghost use Rattle.tams_words.specs.Laws.{BasesAreText, SpellOneCommand};
ghost use Rattle.tams_words.specs.Worked.{WordsAsWorked};

/// Words spell one command at most.
pub fn words_spell_one_command()
    ensures { SpellOneCommand }
{}

/// An address is text.
pub fn bases_are_text()
    ensures { BasesAreText }
{}

/// What seven command lines spell.
pub fn words_as_worked()
    ensures { WordsAsWorked }
{}
