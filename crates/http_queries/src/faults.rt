//! The first pair of a query that is at fault.
ghost use Rattle.std.specs.Prelude.{◌≡◌, IfOk};
ghost use Rattle.std.specs.List.{list_any};
ghost use Rattle.http_queries.specs.Pairs.{is_pair_named};
ghost use Rattle.http_queries.specs.Rules.{is_faulty, query_fault};

use crate::pairs::{Pair, PairList, is_named};
use crate::rules::{QueryKind, is_read, rule_of};
use disk_trait::{Memory, Text};
use std::alloc::Global;

/// The name of the first pair that is at fault: its value can't be read, its name stood before, or the name
/// itself is one. Names that aren't listed are no fault, but for a deletion.
pub fn query_fault(alloc: Global, kind: QueryKind, pairs: &PairList) -> Result<Option<Text>, Memory>
    ensures { IfOk result (λ fault. fault ≡ query_fault kind pairs.now) }
{
    let pairs = pairs.items();
    for (index, pair) in pairs.iter().enumerate() {
        if is_faulty(kind, &pairs[..index], pair) {
            return Ok(Some(pair.name.copy(alloc)?));
        }
    }
    Ok(None)
}

/// Whether a pair is at fault behind earlier ones.
fn is_faulty(kind: QueryKind, earlier: &[Pair], pair: &Pair) -> bool
    ensures { result ≡ is_faulty kind earlier.now pair.now }
{
    match rule_of(kind, pair.name.bytes()) {
        Some(rule) => stood(earlier, pair.name.bytes()) || !is_read(rule, pair.value.bytes()),
        None => false,
    }
}

/// Whether a name is that of an earlier pair.
fn stood(earlier: &[Pair], name: &[u8]) -> bool
    ensures { result ≡ list_any (is_pair_named name.now) earlier.now }
{
    earlier.iter().any(|pair| is_named(pair, name))
}
