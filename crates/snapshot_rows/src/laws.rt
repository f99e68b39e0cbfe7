//! Laws of texts of rows. Each function does nothing.
ghost use Rattle.snapshot_rows.specs.Texts.{DamageIsNoText, IsOneList, IsOnePlace};

/// In each form a text spells one list of rows at most, and has one place at most at which it is damaged;
/// where it is damaged, it spells none.
pub fn texts_have_one_meaning()
    ensures rows { IsOneList }
    ensures place { IsOnePlace }
    ensures either { DamageIsNoText }
{}
