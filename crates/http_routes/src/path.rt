//! Paths and their pieces.
ghost use Rattle.std.specs.Prelude.{◌≡◌};
ghost use Rattle.http_routes.specs.Paths as spec;

use crate::cut::cut;

/// What stands between the pieces of a path.
const SLASH: u8 = b'/';

/// What stands before a query.
const QUESTION_MARK: u8 = b'?';

/// The path of a target, as it was sent.
pub fn path_of(target: &[u8]) -> &[u8]
    ensures { result.now ≡ spec.path_of target.now }
{
    cut(target, QUESTION_MARK).0
}

/// The query of a target, which is empty where there is none.
pub fn query_of(target: &[u8]) -> &[u8]
    ensures { result.now ≡ spec.query_of target.now }
{
    match cut(target, QUESTION_MARK).1 {
        Some(query) => query,
        None => &[],
    }
}

/// The piece of a path behind so many slashes, which is empty where there is none.
#[tactic(auto, using(crate::proofs::Pieces::pieces_cut))]
pub(crate) fn piece_at(path: &[u8], place: usize) -> &[u8]
    ensures { result.now ≡ spec.piece_at place path.now }
{
    let mut rest = path;
    for step in 0..place {
        match cut(rest, SLASH).1 {
            Some(more) => rest = more,
            None => return &[],
        }
    }
    cut(rest, SLASH).0
}
