//! Changes and rows in bytes, each with one spelling in each form of the file. The encoders write the
//! form in use, `FORM_IN_USE` of `disk_trait`; the decoders read either.
ghost use Rattle.std.specs.Prelude.{◌≡◌, ◌↔◌, ℕ, IfOk, IsTrue, OnOk, OnErr};
ghost use Rattle.disk_trait.specs.Forms.{IsForm, form_in_use};
ghost use Rattle.field_codec.specs.Laws.{Lawful};
ghost use Rattle.field_codec.specs.Meaning.{begins_with};
ghost use Rattle.field_codec.specs.Reading.{ReadsWhole};
ghost use Rattle.field_codec.specs.Answers.{OnBad};
ghost use Rattle.change_codec.specs.Changes.{change_spelling, has_kind};
ghost use Rattle.change_codec.specs.Codec.{CanWriteRow, SpellsChange, CanWriteChange, ChangeFaultAt, BeginsWithRow, AppendsRow, AppendsIfSpelled, RowFaultAt};
ghost use Rattle.media_rows.specs.declared.change.Change.{Change};
ghost use Rattle.media_rows.specs.declared.row.Row.{Row};

use crate::changes::kind_of;
use crate::field::Field;
use crate::sized::{read_row, write_row};
use crate::writable::Writable;
use disk_trait::{FORM_IN_USE, Memory, Text};
use field_codec::{BadField, CodecFault, Cursor, ReadFault};
use media_rows::{Change, Row};
use std::alloc::Global;

/// Whether a change has a spelling in the form in use.
pub fn has_spelling(change: &Change) -> bool
    ensures { IsTrue result ↔ CanWriteChange form_in_use change.now }
{
    change.can_write() && has_kind(FORM_IN_USE, kind_of(change))
}

/// The one spelling of a change that has one, in the form in use.
pub fn encode_change(alloc: Global, change: &Change) -> Result<Text, Memory>
    requires { CanWriteChange form_in_use change.now }
    ensures { IfOk result (λ text. SpellsChange form_in_use text change.now) }
{
    let mut text = Text::new(alloc);
    change.write_to(alloc, &mut text)?;
    Ok(text)
}

/// The change that these bytes spell in a form, all of them. `Bad` names the offset at which the first
/// faulty field begins that holds no other faulty field, or of the first byte behind the last field;
/// bytes of a kind that the form hasn't are faulty at their beginning.
pub fn decode_change(alloc: Global, bytes: &[u8], form: u8) -> Result<Change, CodecFault>
    requires form { IsForm form }
    ensures ok { IfOk result (SpellsChange form bytes.now) }
    ensures writable { IfOk result (CanWriteChange form) }
    ensures only { (change : Change) → SpellsChange form bytes.now change →
        IfOk result (λ decoded. decoded ≡ change) }
    ensures bad { OnBad result (ChangeFaultAt form bytes.now) }
    ensures none { OnBad result
        (λ at. (change : Change) → SpellsChange form bytes.now change → ⊥) }
{
    match read_change(alloc, bytes, form) {
        Ok(change) => Ok(change),
        Err(ReadFault::Bad(field)) => Err(CodecFault::Bad(bytes.len() - field.left)),
        Err(ReadFault::Memory) => Err(CodecFault::Memory),
    }
}

/// Reads a change of a kind of this form, which takes all of the bytes.
fn read_change(alloc: Global, bytes: &[u8], form: u8) -> Result<Change, ReadFault>
    ensures { ReadsWhole (change_spelling form) bytes.now result }
{
    if !begins_with_kind(bytes, form) {
        return Err(ReadFault::Bad(BadField { left: bytes.len() }));
    }
    read_all(alloc, bytes)
}

/// Whether the first byte is there, and a kind of change that the form has.
fn begins_with_kind(bytes: &[u8], form: u8) -> bool
    ensures { result ≡ begins_with (has_kind form) bytes.now }
{
    match bytes.first() {
        Some(kind) => has_kind(form, *kind),
        None => false,
    }
}

/// Whether a form has a kind of change.
fn has_kind(form: u8, kind: u8) -> bool
    ensures { result ≡ has_kind form kind }
{
    if form == 1 { kind <= 13 } else { kind != 6 }
}

/// Reads a value that takes all of the bytes.
#[tactic(auto, using(crate::proofs::CodecLemmas::bytes_remain))]
fn read_all<T: Field>(alloc: Global, bytes: &[u8]) -> Result<T, ReadFault>
    requires { Lawful T.spelling }
    ensures { ReadsWhole T.spelling bytes.now result }
{
    let mut input = Cursor::new(bytes);
    let value = T::read_from(alloc, &mut input)?;
    let left = input.left();
    if left != 0 {
        return Err(ReadFault::Bad(BadField { left }));
    }
    Ok(value)
}

/// Adds the one spelling of a row that has one, in the form in use, at the end of `out`. After an error
/// `out` is as it was.
pub fn encode_row(alloc: Global, row: &Row, out: &mut Text) -> Result<(), Memory>
    requires { CanWriteRow form_in_use row.now }
    ensures ok { OnOk result (AppendsRow out.old row.now out.new) }
    ensures err { OnErr result (out.new ≡ out.old) }
{
    match encode_row_if_spelled(alloc, row, out)? {
        true => Ok(()),
        false => unreachable!(),
    }
}

/// Adds the spelling of a row in the form in use at the end of `out`, where it has one, and tells whether
/// it has. Where it has none, and after an error, `out` is as it was.
pub fn encode_row_if_spelled(alloc: Global, row: &Row, out: &mut Text) -> Result<bool, Memory>
    ensures ok { IfOk result (AppendsIfSpelled out.old row.now out.new) }
    ensures err { OnErr result (out.new ≡ out.old) }
{
    let mut spelling = Text::new(alloc);
    if !write_row(alloc, row, &mut spelling)? {
        return Ok(false);
    }
    out.append(spelling.bytes())?;
    Ok(true)
}

/// The row whose spelling in a form the bytes begin with, and how many bytes it takes. `Bad` is as for
/// changes; where all fields of a row are spelled and its length isn't theirs, the offset is 1.
pub fn decode_row(alloc: Global, bytes: &[u8], form: u8) -> Result<(Row, u64), CodecFault>
    requires form { IsForm form }
    ensures ok { IfOk result (λ found. BeginsWithRow form bytes.now found.0 found.1) }
    ensures writable { IfOk result (λ found. CanWriteRow form found.0) }
    ensures only { (row : Row) (taken : ℕ) → BeginsWithRow form bytes.now row taken →
        IfOk result (λ found. found ≡ (row, taken)) }
    ensures bad { OnBad result (RowFaultAt form bytes.now) }
    ensures none { OnBad result
        (λ at. (row : Row) (taken : ℕ) → BeginsWithRow form bytes.now row taken → ⊥) }
{
    let mut input = Cursor::new(bytes);
    match read_row(alloc, &mut input, form) {
        Ok(row) => Ok((row, (bytes.len() - input.left()) as u64)),
        Err(ReadFault::Bad(field)) => Err(CodecFault::Bad(bytes.len() - field.left)),
        Err(ReadFault::Memory) => Err(CodecFault::Memory),
    }
}
