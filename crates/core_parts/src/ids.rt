//! Ids of new objects: the store's own, or those that a client names.
ghost use Rattle.std.specs.Prelude.{◌≡◌, ◌+◌, ◌++◌, ◌≤◌, IfOk, codes, decimal, length, map};
ghost use Rattle.media_rows.specs.declared.change.Change.TheVariants as changes;
ghost use Rattle.media_rows.specs.declared.command.Command.TheVariants as commands;
ghost use Rattle.media_rows.specs.declared.command.Want.TheVariants.{Named};
ghost use Rattle.media_rows.specs.Answer.{made_id, made_prefix, refusal_of, wanted_ids};
ghost use Rattle.media_rows.specs.Changes.{after};
ghost use Rattle.media_rows.specs.Lists.{numbers_below};
ghost use Rattle.media_rows.specs.Refusals.{IsChange};
ghost use Rattle.core_parts.specs.Conditions.{IsReady};
ghost use Rattle.core_parts.specs.Parts.{given_library, within_serials};
ghost use Rattle.core_parts.specs.Within.{front_length};

use crate::Parts;
use disk_trait::{Duplicate, Memory, Text, TextList};
use itoa::Buffer;
use media_rows::{BookFault, Refusal, Want, print_id};
use std::alloc::Global;

impl Parts {
    /// The ids of an allocation: the store's own for the next serials, or those that a client names. A serial that
    /// passes a `u64` is want of memory.
    pub fn wanted_ids(&self, alloc: Global, want: &Want) -> Result<TextList, Memory>
        ensures { IfOk result (λ ids. ids ≡ wanted_ids self.now.library want.now) }
    {
        match want {
            Want::Count(count) => made_ids(alloc, self.id, self.registry.next_serial(), *count),
            Want::Named(ids) => ids.duplicate(alloc),
        }
    }

    /// Adds the objects of an allocation for a flow.
    pub fn allocate_wanted(
        &self,
        alloc: Global,
        flow: u128,
        want: &Want,
        ids: &[Text],
        now: u64,
    ) -> Result<Option<Parts>, BookFault>
        requires ready { IsReady self.now.library }
        requires ids { ids.now ≡ wanted_ids self.now.library want.now }
        ensures { IsChange (refusal_of self.now.library (commands.Allocate flow want.now))
            (within_serials (after (changes.Allocate now flow ids.now) self.now.library)) (given_library result) }
    {
        match want {
            Want::Count(_) => self.allocate(alloc, flow, ids, now),
            Want::Named(_) => self.allocate_named(alloc, flow, ids, now),
        }
    }

    /// Adds objects of ids that a client names, none of which may begin as the store's own.
    fn allocate_named(
        &self,
        alloc: Global,
        flow: u128,
        ids: &[Text],
        now: u64,
    ) -> Result<Option<Parts>, BookFault>
        requires ready { IsReady self.now.library }
        ensures { IsChange (refusal_of self.now.library (commands.Allocate flow (Named ids.now)))
            (within_serials (after (changes.Allocate now flow ids.now) self.now.library)) (given_library result) }
    {
        let prefix = made_prefix(alloc, self.id)?;
        let front = front_length(prefix.bytes(), ids);
        match self.allocate(alloc, flow, &ids[..front], now) {
            Ok(next) => {
                if front < ids.len() {
                    let id = ids[front].duplicate(alloc)?;
                    return Err(BookFault::Refused(Refusal::IdTaken(id)));
                }
                Ok(next)
            }
            Err(fault) => Err(fault),
        }
    }
}

/// How many ids stand before the first that begins in this way.
fn front_length(prefix: &[u8], ids: &[Text]) -> usize
    ensures front { result ≡ front_length prefix.now ids.now }
    ensures within { result ≤ length ids.now }
{
    for index in 0..ids.len() {
        if ids[index].bytes().starts_with(prefix) {
            return index;
        }
    }
    ids.len()
}

/// What ids that the store makes begin with.
fn made_prefix(alloc: Global, store: u128) -> Result<Text, Memory>
    ensures { IfOk result (λ text. text ≡ made_prefix store) }
{
    let mut prefix = print_id(alloc, store)?;
    prefix.append(b"-")?;
    Ok(prefix)
}

/// The ids that the store makes for so many serials from this one on.
fn made_ids(alloc: Global, store: u128, serial: u64, count: u64) -> Result<TextList, Memory>
    ensures { IfOk result
        (λ ids. ids ≡ map (λ i. made_id store (serial + i)) (numbers_below count)) }
{
    if count > u64::MAX - serial {
        return Err(Memory);
    }
    let mut ids = TextList::new(alloc);
    for index in 0..count {
        ids.push(made_id(alloc, store, serial + index)?)?;
    }
    Ok(ids)
}

/// The id that the store makes for an object of this serial.
fn made_id(alloc: Global, store: u128, serial: u64) -> Result<Text, Memory>
    ensures { IfOk result (λ text. text ≡ made_id store serial) }
{
    let mut buffer = Buffer::new();
    let mut id = made_prefix(alloc, store)?;
    id.append(buffer.format(serial).as_bytes())?;
    Ok(id)
}
