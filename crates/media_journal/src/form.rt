//! The first eight bytes of a half as one number: the byte of its form, and the length of its rows in
//! seven bytes.
ghost use Rattle.std.specs.Prelude.{◌≡◌, ◌<◌, ◌^◌};
ghost use Rattle.disk_trait.specs.Forms.{form_in_use};
ghost use Rattle.media_journal.specs.File.{half_number, mark};
ghost use Rattle.media_journal.specs.Within.Scan.{SaysForm};

use disk_trait::FORM_IN_USE;

/// The place of the form's byte, before seven bytes.
pub(crate) const FORM_PLACE: u64 = 1 << 56;

/// The number with which a half of the form in use begins, where its rows have so many bytes.
pub(crate) fn half_number(size: u64) -> u64
    requires { size < 2 ^ 56 }
    ensures { result ≡ half_number form_in_use size }
{
    u64::from(mark(FORM_IN_USE)) * FORM_PLACE + size
}

/// The form of a half that begins with this number, if it is of one.
pub(crate) fn form_of(number: u64) -> Option<u8>
    ensures { SaysForm number result }
{
    match number / FORM_PLACE {
        0 => Some(1),
        2 => Some(2),
        _ => None,
    }
}

/// The byte with which a half of this form begins.
fn mark(form: u8) -> u8
    ensures { result ≡ mark form }
{
    if form == 1 { 0 } else { 2 }
}
