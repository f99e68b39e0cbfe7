//! Ways to show a value, and what is said once for all of them: lists, and members of an object.
ghost use Rattle.std.specs.Prelude.{◌≡◌, ◌++◌, List, OnOk};
ghost use Rattle.json.specs.Token.{Token};
ghost use Rattle.json_replies.specs.Shapes.{Appends, always, list_tokens, member_tokens, string_value, where_any, where_set};

use crate::json_text::JsonText;
use disk_trait::{Listed, Memory};
use std::alloc::Global;

/// A way to show values of a type as JSON.
pub(crate) trait Shows<T> {
    ghost shown: { Self → T → List Token };

    /// Appends the value's tokens.
    fn show(&self, alloc: Global, value: &T, out: &mut JsonText) -> Result<(), Memory>
        ensures { OnOk result (Appends out.old out.new (shown self.now value.now)) };
}

/// Appends a list of items.
pub(crate) fn show_list<T, S: Shows<T>>(
    alloc: Global,
    items: &[T],
    shows: &S,
    out: &mut JsonText,
) -> Result<(), Memory>
    ensures { OnOk result (Appends out.old out.new (list_tokens (S.shown shows.now) items.now)) }
{
    out.begin_array()?;
    for item in items {
        shows.show(alloc, item, out)?;
    }
    out.end_array()
}

/// Appends a member that is always there.
#[tactic(auto, unfolding(crate::specs::Shapes::member_tokens))]
pub(crate) fn show_member<T, S: Shows<T>>(
    alloc: Global,
    name: &str,
    value: &T,
    shows: &S,
    out: &mut JsonText,
) -> Result<(), Memory>
    ensures { OnOk result
        (Appends out.old out.new (member_tokens (always name.now (S.shown shows.now value.now)))) }
{
    out.key(name)?;
    shows.show(alloc, value, out)
}

/// Appends a member whose value is this word.
#[tactic(auto, unfolding(crate::specs::Shapes::member_tokens))]
pub(crate) fn show_word(name: &str, word: &str, out: &mut JsonText) -> Result<(), Memory>
    ensures { OnOk result
        (Appends out.old out.new (member_tokens (always name.now (string_value word.now)))) }
{
    out.key(name)?;
    out.string(word)
}

/// Appends a member where it is set.
#[tactic(auto, unfolding(crate::specs::Shapes::member_tokens))]
pub(crate) fn show_if_set<T, S: Shows<T>>(
    alloc: Global,
    name: &str,
    value: &Option<T>,
    shows: &S,
    out: &mut JsonText,
) -> Result<(), Memory>
    ensures { OnOk result (Appends out.old out.new
        (member_tokens (where_set name.now (S.shown shows.now) value.now))) }
{
    match value {
        Some(value) => show_member(alloc, name, value, shows, out),
        None => Ok(()),
    }
}

/// Appends a member that is there where its list has an item.
#[tactic(auto, unfolding(crate::specs::Shapes::member_tokens))]
pub(crate) fn show_if_any<T, S: Shows<Listed<T>>>(
    alloc: Global,
    name: &str,
    value: &Listed<T>,
    shows: &S,
    out: &mut JsonText,
) -> Result<(), Memory>
    ensures { OnOk result (Appends out.old out.new
        (member_tokens (where_any name.now (S.shown shows.now) value.now))) }
{
    if value.items().is_empty() {
        return Ok(());
    }
    show_member(alloc, name, value, shows, out)
}
