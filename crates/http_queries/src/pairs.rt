//! The pairs of a query, as the URL Standard reads a form.
ghost use Rattle.std.specs.Prelude.{◌≡◌, IfOk, option_map};
ghost use Rattle.http_queries.specs.Pairs.{is_pair_named, query_pairs, value_of};

use disk_trait::{Listed, Memory, Text, same_bytes};
use form_urlencoded::parse;
use std::alloc::Global;

/// A pair: its name and its value, with their escapes undone. Both are UTF-8.
#[derive(Drop)]
pub struct Pair {
    pub name: Text,
    pub value: Text,
}

/// The pairs of a query, in its order.
pub type PairList = Listed<Pair>;

/// The pairs of a query (URL Standard, section 5.1). What isn't UTF-8 in them becomes U+FFFD.
#[tactic(auto, unfolding(crate::specs::Pairs::query_pairs))]
pub fn read_pairs(alloc: Global, query: &[u8]) -> Result<PairList, Memory>
    ensures { IfOk result (λ pairs. pairs ≡ query_pairs query.now) }
{
    let mut pairs = Listed::new(alloc);
    for item in parse(alloc, query) {
        let (name, value) = item?;
        pairs.push(Pair {
            name: Text::from_bytes(alloc, name.as_bytes())?,
            value: Text::from_bytes(alloc, value.as_bytes())?,
        })?;
    }
    Ok(pairs)
}

/// Whether a pair has this name.
pub(crate) fn is_named(pair: &Pair, name: &[u8]) -> bool
    ensures { result ≡ is_pair_named name.now pair.now }
{
    same_bytes(pair.name.bytes(), name)
}

/// The value of the first pair of a name, where there is one.
pub(crate) fn value_of<'p>(pairs: &'p [Pair], name: &[u8]) -> Option<&'p [u8]>
    ensures { option_map (λ value. value.now) result ≡ value_of name.now pairs.now }
{
    for pair in pairs {
        if is_named(pair, name) {
            return Some(pair.value.bytes());
        }
    }
    None
}
