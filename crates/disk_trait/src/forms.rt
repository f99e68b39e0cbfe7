//! Forms of the store's file.

/// The form in which the file is written. Form 1 has no digest of an object's bytes, and form 2 has
/// one. Both are read.
pub const FORM_IN_USE: u8 = 2;
