//! Laws of the spellings, which hold of all bytes.
ghost use Rattle.std.specs.Prelude.{◌≡◌, ◌++◌, [], List, ℕ, Some, slice_get};
ghost use Rattle.field_codec.specs.Meaning.{Spells};
ghost use Rattle.field_codec.specs.Laws.{IsBytes};
ghost use Rattle.change_codec.specs.Codec.{SpellsChange, ChangeFaultAt, RowFaultAt};
ghost use Rattle.change_codec.specs.Changes.{change_kind, change_spelling};
ghost use Rattle.change_codec.specs.Rows.{row_spelling};
ghost use Rattle.media_rows.specs.declared.change.Change.{Change};
ghost use Rattle.media_rows.specs.declared.row.Row.{Row};
ghost use Rattle.media_rows.specs.Snapshot.{kind_number};
ghost use Rattle.change_codec.specs.WorkedFitting.{FitsAsWorked};

/// Bytes are the spelling of one change at most, in each form.
pub fn changes_have_one_spelling()
    ensures { (form : ℕ) (bytes : List ℕ) (a b : Change) →
        SpellsChange form bytes a → SpellsChange form bytes b → a ≡ b }
{}

/// In each form no spelling of a row is a proper prefix of another's.
pub fn rows_are_no_prefixes()
    ensures { (form : ℕ) (text more : List ℕ) (a b : Row) → Spells (row_spelling form).meaning text a
        → Spells (row_spelling form).meaning (text ++ more) b → more ≡ [] }
{}

/// The fault of some bytes as a change of a form has one place.
pub fn change_faults_have_one_place()
    ensures { (form : ℕ) (bytes : List ℕ) (at other : ℕ) →
        IsBytes bytes → ChangeFaultAt form bytes at → ChangeFaultAt form bytes other → at ≡ other }
{}

/// The fault of some bytes as a row of a form has one place.
pub fn row_faults_have_one_place()
    ensures { (form : ℕ) (bytes : List ℕ) (at other : ℕ) →
        IsBytes bytes → RowFaultAt form bytes at → RowFaultAt form bytes other → at ≡ other }
{}

/// The first byte of a row's spelling is the number of its kind, in each form.
pub fn rows_begin_with_their_kinds()
    ensures { (form : ℕ) (row : Row) →
        slice_get ((row_spelling form).meaning.spell row) 0 ≡ Some (kind_number row) }
{}

/// The first byte of a change's spelling is the number of its kind, in each form.
pub fn changes_begin_with_their_kinds()
    ensures { (form : ℕ) (change : Change) →
        slice_get ((change_spelling form).meaning.spell change) 0 ≡ Some (change_kind change) }
{}

/// What fits a small journal, by hand.
pub fn fits_as_worked()
    ensures { FitsAsWorked }
{}
