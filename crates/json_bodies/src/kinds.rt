//! Lists in bodies, and what their items are.
ghost use Rattle.std.specs.Prelude.{◌≡◌, IfOk, IsTrue, true, Bool, Option, option_map, option_and_then};
ghost use Rattle.std.specs.List.{list_all};
ghost use Rattle.std.specs.Str.{is_utf8};
ghost use Rattle.serde_json.specs.Data.{Data};
ghost use Rattle.serde_json.specs.Find.{as_str};
ghost use Rattle.serde_json.specs.View.{view, items_view};
ghost use Rattle.media_rows.specs.Good.{if_there, is_member_text};
ghost use Rattle.media_rows.specs.Ids.{is_object_id};
ghost use Rattle.json_bodies.specs.Kinds.{each_item, items_of_value, counted_items, object_id_value, role_value, member_value};
ghost use Rattle.json_bodies.specs.Rules.{id_of_value};

use crate::fault::{Breach, RuleFault};
use crate::rules::Rule;
use disk_trait::{Listed, Memory, Text};
use media_rows::{Member, is_object_id, read_id};
use serde_json::Value;
use std::alloc::Global;

/// How an item of a list is read.
pub(crate) trait Kind<T> {
    /// What a value is, where it is of the kind.
    ghost kind_of: { Self → Data → Option T };

    /// What else is true of an item, as the library asks.
    ghost is_good: { Self → T → Bool };

    fn read(&self, alloc: Global, value: &Value) -> Result<Option<T>, Memory>
        ensures kind { IfOk result (λ found. found ≡ kind_of self.now (view value.now)) }
        ensures good { IfOk result (λ found. IsTrue (if_there (is_good self.now) found)) };
}

/// What the values are, where each is of the kind.
pub(crate) fn read_each<T: Drop, K: Kind<T>>(
    alloc: Global,
    values: &[Value],
    kind: &K,
) -> Result<Option<Listed<T>>, Memory>
    ensures items { IfOk result (λ found. found
        ≡ each_item (K.kind_of kind.now) (items_view values.now)) }
    ensures good { IfOk result
        (λ found. IsTrue (if_there (list_all (K.is_good kind.now)) found)) }
{
    let mut list = Listed::new(alloc);
    for value in values {
        let Some(item) = kind.read(alloc, value)? else {
            return Ok(None);
        };
        list.push(item)?;
    }
    Ok(Some(list))
}

/// A list, where the value is one and each item is of the kind.
pub(crate) fn read_list<T: Drop, K: Kind<T>>(
    alloc: Global,
    value: &Value,
    kind: &K,
) -> Result<Option<Listed<T>>, Memory>
    ensures items { IfOk result (λ found. found
        ≡ items_of_value (K.kind_of kind.now) (view value.now)) }
    ensures good { IfOk result
        (λ found. IsTrue (if_there (list_all (K.is_good kind.now)) found)) }
{
    match value.as_array() {
        Some(values) => read_each(alloc, values.as_slice(), kind),
        None => Ok(None),
    }
}

/// A list with so many items of a kind.
#[derive(Drop)]
pub(crate) struct CountedRule<K> {
    pub(crate) kind: K,
    pub(crate) least: usize,
    pub(crate) most: usize,
}

impl<T: Drop, K: Kind<T>> Rule<Listed<T>> for CountedRule<K> {
    ghost gives = { λ rule. counted_items (K.kind_of rule.kind) rule.least rule.most };

    ghost is_good = { λ rule. list_all (K.is_good rule.kind) };

    fn read(&self, alloc: Global, value: &Value) -> Result<Listed<T>, RuleFault> {
        let Some(list) = read_list(alloc, value, &self.kind)? else {
            return Err(RuleFault::Breach(Breach::WrongKind));
        };
        let count = list.items().len();
        if self.least <= count && count <= self.most {
            Ok(list)
        } else {
            Err(RuleFault::Breach(Breach::OutOfRange))
        }
    }
}

/// A text.
#[derive(Drop)]
pub(crate) struct TextKind;

impl Kind<Text> for TextKind {
    ghost kind_of = { λ _. as_str };

    ghost is_good = { λ _. is_utf8 };

    #[tactic(auto, using(crate::proofs::Texts::is_utf8_text))]
    fn read(&self, alloc: Global, value: &Value) -> Result<Option<Text>, Memory> {
        let Some(text) = value.as_str() else {
            return Ok(None);
        };
        Ok(Some(Text::from_bytes(alloc, text.as_bytes())?))
    }
}

/// An id, in any of the forms of a UUID's text.
#[derive(Drop)]
pub(crate) struct IdKind;

impl Kind<u128> for IdKind {
    ghost kind_of = { λ _. id_of_value };

    ghost is_good = { λ _ _. true };

    fn read(&self, _alloc: Global, value: &Value) -> Result<Option<u128>, Memory> {
        Ok(read_id_value(Some(value)))
    }
}

/// The id of an object.
#[derive(Drop)]
pub(crate) struct ObjectIdKind;

impl Kind<Text> for ObjectIdKind {
    ghost kind_of = { λ _. object_id_value };

    ghost is_good = { λ _. is_object_id };

    fn read(&self, alloc: Global, value: &Value) -> Result<Option<Text>, Memory> {
        let Some(text) = value.as_str() else {
            return Ok(None);
        };
        let bytes = text.as_bytes();
        if !is_object_id(bytes) {
            return Ok(None);
        }
        Ok(Some(Text::from_bytes(alloc, bytes)?))
    }
}

/// The role of a collected flow, which may be absent.
fn read_role(alloc: Global, value: Option<&Value>) -> Result<Option<Option<Text>>, Memory>
    ensures role { IfOk result (λ found. found ≡ role_value (option_map (λ v. view v.now) value.entry)) }
    ensures good { IfOk result (λ found. IsTrue (if_there (if_there is_utf8) found)) }
{
    let Some(value) = value else {
        return Ok(Some(None));
    };
    match TextKind.read(alloc, value)? {
        Some(role) => Ok(Some(Some(role))),
        None => Ok(None),
    }
}

/// The id that the value spells, where there is one.
fn read_id_value(value: Option<&Value>) -> Option<u128>
    ensures { result ≡ option_and_then id_of_value (option_map (λ v. view v.now) value.entry) }
{
    read_id(value?.as_str()?.as_bytes())
}

/// A collected flow.
#[derive(Drop)]
pub(crate) struct MemberKind;

impl Kind<Member> for MemberKind {
    ghost kind_of = { λ _. member_value };

    ghost is_good = { λ _. is_member_text };

    fn read(&self, alloc: Global, value: &Value) -> Result<Option<Member>, Memory> {
        let Some(flow) = read_id_value(value.get("id")) else {
            return Ok(None);
        };
        let Some(role) = read_role(alloc, value.get("role"))? else {
            return Ok(None);
        };
        Ok(Some(Member { flow, role }))
    }
}
