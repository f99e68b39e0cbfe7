//! Laws of a library together with the bytes of its objects.
ghost use Rattle.library_laws.specs.MediaLaws.{BytesFit, BytesStay, DigestsStay, PutsApply, QuestionsApply, WholeAreGiven};

/// After a change, too, each stored object's bytes have its length.
pub fn bytes_fit()
    ensures { BytesFit }
{}

/// A stored object keeps its bytes while it is kept.
pub fn bytes_stay()
    ensures { BytesStay }
{}

/// Where each stored object has the digest of its bytes, so it has after a change with that of the bytes
/// that came.
pub fn digests_stay()
    ensures { DigestsStay }
{}

/// Bytes that are kept take the least free place, by a change that applies.
pub fn puts_apply()
    ensures { PutsApply }
{}

/// Where a question is answered with a change, the change applies, unless the serials would end.
pub fn questions_apply()
    ensures { QuestionsApply }
{}

/// Where each stored object has the digest of its bytes, the bytes of each are given.
pub fn whole_are_given()
    ensures { WholeAreGiven }
{}
