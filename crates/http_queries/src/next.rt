//! The query of the next page.
ghost use Rattle.std.specs.Prelude.{◌≡◌, [], IfOk, OnOk};
ghost use Rattle.media_rows.specs.Views.{key_id};
ghost use Rattle.http_queries.specs.Next as spec;
ghost use Rattle.http_queries.specs.Next.{form_of};

use crate::pairs::{Pair, PairList, is_named};
use disk_trait::{Memory, Text};
use form_urlencoded::Serializer;
use std::alloc::Global;
use std::str;

/// The pairs of a query but for `page`, and `page` with this key behind them. The pairs of each
/// query that was read are UTF-8, and so is a key; others would be answered as want of memory.
pub fn next_query(alloc: Global, pairs: &PairList, key: &Text) -> Result<Text, Memory>
    ensures { IfOk result (λ text. text ≡ spec.next_query pairs.now key.now) }
{
    let mut form = form_of(alloc, pairs.items())?;
    let Ok(key) = str::from_utf8(key.bytes()) else {
        return Err(Memory);
    };
    form.append_pair("page", key)?;
    Ok(Text::from_bytes(alloc, form.finish().as_bytes())?)
}

/// The form of the pairs but for the key.
fn form_of(alloc: Global, pairs: &[Pair]) -> Result<Serializer, Memory>
    ensures form { IfOk result (λ form. form.form ≡ form_of pairs.now) }
    ensures prefix { IfOk result (λ form. form.prefix ≡ []) }
{
    let mut form = Serializer::new(String::new(alloc));
    for pair in pairs {
        if !is_named(pair, b"page") {
            append(&mut form, pair)?;
        }
    }
    Ok(form)
}

/// Adds a pair to a form.
fn append(form: &mut Serializer, pair: &Pair) -> Result<(), Memory>
    ensures { OnOk result (form.new ≡ record form.old { form = spec.form_with form.old.form pair.now }) }
{
    let Ok(name) = str::from_utf8(pair.name.bytes()) else {
        return Err(Memory);
    };
    let Ok(value) = str::from_utf8(pair.value.bytes()) else {
        return Err(Memory);
    };
    form.append_pair(name, value)?;
    Ok(())
}

/// The id of a key: 2^127 more.
pub fn id_of_key(key: i128) -> u128
    ensures { result ≡ key_id key }
{
    const HALF: u128 = 1 << 127;
    if key < 0 {
        (key + i128::MAX + 1) as u128
    } else {
        key as u128 + HALF
    }
}
