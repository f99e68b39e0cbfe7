//! The fields of each kind of change.
ghost use Rattle.std.specs.Prelude.{◌≡◌, ◌∷◌, OnOk};
ghost use Rattle.media_rows.specs.Changes.{moment_of};
ghost use Rattle.field_codec.specs.Spelling.{pair};
ghost use Rattle.field_codec.specs.Reading.{GivesField, WritesValue};
ghost use Rattle.change_codec.specs.Changes.{all_changes, change_kind};

use crate::field::Field;
use crate::parts::{read_source_part, write_source_part};
use disk_trait::{Memory, Text};
use field_codec::{BadField, Cursor, ReadFault, write_u64};
use media_rows::Change;
use std::alloc::Global;

impl Field for Change {
    ghost spelling = { all_changes };

    #[tactic(auto, unfolding(crate::specs::Changes::all_changes, crate::specs::Changes::later_spelling, crate::specs::Changes::last_spelling))]
    fn read_from(alloc: Global, input: &mut Cursor) -> Result<Change, ReadFault> {
        let left = input.left();
        match input.first() {
            Some(1) => read_put_flow(alloc, input),
            Some(2) => read_set_flow(alloc, input),
            Some(3) => read_set_source(alloc, input),
            Some(4) => read_drop_flow(alloc, input),
            Some(5) => read_allocate(alloc, input),
            Some(6) => read_store(alloc, input),
            Some(7) => read_add_segments(alloc, input),
            Some(8) => read_cut_segments(alloc, input),
            Some(9) => read_ask_delete(alloc, input),
            Some(10) => read_delete_step(alloc, input),
            Some(11) => read_sweep_step(alloc, input),
            Some(12) => read_put_hook(alloc, input),
            Some(13) => read_drop_hook(alloc, input),
            Some(14) => read_delivered(alloc, input),
            Some(15) => read_store_with_digest(alloc, input),
            _ => Err(BadField { left })?,
        }
    }

    #[tactic(auto, unfolding(crate::specs::Changes::all_changes, crate::specs::Changes::later_spelling, crate::specs::Changes::last_spelling))]
    fn write_to(&self, alloc: Global, out: &mut Text) -> Result<(), Memory> {
        out.push(kind_of(self))?;
        write_u64(out, moment_of(self))?;
        match self {
            Change::PutFlow { flow, .. } => flow.write_to(alloc, out),
            Change::SetFlow { flow, part, .. } => write_both(alloc, flow, part, out),
            Change::SetSource { source, part, .. } => {
                source.write_to(alloc, out)?;
                write_source_part(alloc, part, out)
            }
            Change::DropFlow { flow, .. } => flow.write_to(alloc, out),
            Change::Allocate { flow, objects, .. } => write_both(alloc, flow, objects, out),
            Change::Store {
                object,
                start_block,
                length,
                digest,
                ..
            } => {
                object.write_to(alloc, out)?;
                write_both(alloc, start_block, length, out)?;
                match digest {
                    Some(digest) => digest.write_to(alloc, out),
                    None => Ok(()),
                }
            }
            Change::AddSegments { flow, segments, .. } => write_both(alloc, flow, segments, out),
            Change::CutSegments { flow, range, .. } => write_both(alloc, flow, range, out),
            Change::AskDelete {
                flow,
                range,
                delete_flow,
                ..
            } => {
                flow.write_to(alloc, out)?;
                write_both(alloc, range, delete_flow, out)
            }
            Change::DeleteStep { .. } | Change::SweepStep { .. } => Ok(()),
            Change::PutHook { hook, .. } => hook.write_to(alloc, out),
            Change::DropHook { url, .. } => url.write_to(alloc, out),
            Change::Delivered { event, .. } => event.write_to(alloc, out),
        }
    }
}

// ---- reading: the moment and the fields of each kind, which stand behind it

#[tactic(auto, unfolding(crate::specs::Changes::all_changes))]
fn read_put_flow(alloc: Global, input: &mut Cursor) -> Result<Change, ReadFault>
    ensures { GivesField all_changes (1 ∷ input.old) input.new result }
{
    let (moment, flow) = Field::read_from(alloc, input)?;
    Ok(Change::PutFlow { moment, flow })
}

#[tactic(auto, unfolding(crate::specs::Changes::all_changes))]
fn read_set_flow(alloc: Global, input: &mut Cursor) -> Result<Change, ReadFault>
    ensures { GivesField all_changes (2 ∷ input.old) input.new result }
{
    let (moment, (flow, part)) = Field::read_from(alloc, input)?;
    Ok(Change::SetFlow { moment, flow, part })
}

#[tactic(auto, unfolding(crate::specs::Changes::all_changes))]
fn read_set_source(alloc: Global, input: &mut Cursor) -> Result<Change, ReadFault>
    ensures { GivesField all_changes (3 ∷ input.old) input.new result }
{
    Ok(Change::SetSource {
        moment: Field::read_from(alloc, input)?,
        source: Field::read_from(alloc, input)?,
        part: read_source_part(alloc, input)?,
    })
}

#[tactic(auto, unfolding(crate::specs::Changes::all_changes))]
fn read_drop_flow(alloc: Global, input: &mut Cursor) -> Result<Change, ReadFault>
    ensures { GivesField all_changes (4 ∷ input.old) input.new result }
{
    let (moment, flow) = Field::read_from(alloc, input)?;
    Ok(Change::DropFlow { moment, flow })
}

#[tactic(auto, unfolding(crate::specs::Changes::all_changes))]
fn read_allocate(alloc: Global, input: &mut Cursor) -> Result<Change, ReadFault>
    ensures { GivesField all_changes (5 ∷ input.old) input.new result }
{
    Ok(Change::Allocate {
        moment: Field::read_from(alloc, input)?,
        flow: Field::read_from(alloc, input)?,
        objects: Field::read_from(alloc, input)?,
    })
}

#[tactic(auto, unfolding(crate::specs::Changes::all_changes))]
fn read_store(alloc: Global, input: &mut Cursor) -> Result<Change, ReadFault>
    ensures { GivesField all_changes (6 ∷ input.old) input.new result }
{
    Ok(Change::Store {
        moment: Field::read_from(alloc, input)?,
        object: Field::read_from(alloc, input)?,
        start_block: Field::read_from(alloc, input)?,
        length: Field::read_from(alloc, input)?,
        digest: None,
    })
}

#[tactic(auto, unfolding(crate::specs::Changes::all_changes, crate::specs::Changes::later_spelling))]
fn read_add_segments(alloc: Global, input: &mut Cursor) -> Result<Change, ReadFault>
    ensures { GivesField all_changes (7 ∷ input.old) input.new result }
{
    Ok(Change::AddSegments {
        moment: Field::read_from(alloc, input)?,
        flow: Field::read_from(alloc, input)?,
        segments: Field::read_from(alloc, input)?,
    })
}

#[tactic(auto, unfolding(crate::specs::Changes::all_changes, crate::specs::Changes::later_spelling))]
fn read_cut_segments(alloc: Global, input: &mut Cursor) -> Result<Change, ReadFault>
    ensures { GivesField all_changes (8 ∷ input.old) input.new result }
{
    Ok(Change::CutSegments {
        moment: Field::read_from(alloc, input)?,
        flow: Field::read_from(alloc, input)?,
        range: Field::read_from(alloc, input)?,
    })
}

#[tactic(auto, unfolding(crate::specs::Changes::all_changes, crate::specs::Changes::later_spelling))]
fn read_ask_delete(alloc: Global, input: &mut Cursor) -> Result<Change, ReadFault>
    ensures { GivesField all_changes (9 ∷ input.old) input.new result }
{
    Ok(Change::AskDelete {
        moment: Field::read_from(alloc, input)?,
        flow: Field::read_from(alloc, input)?,
        range: Field::read_from(alloc, input)?,
        delete_flow: Field::read_from(alloc, input)?,
    })
}

#[tactic(auto, unfolding(crate::specs::Changes::all_changes, crate::specs::Changes::later_spelling))]
fn read_delete_step(alloc: Global, input: &mut Cursor) -> Result<Change, ReadFault>
    ensures { GivesField all_changes (10 ∷ input.old) input.new result }
{
    let moment = Field::read_from(alloc, input)?;
    Ok(Change::DeleteStep { moment })
}

#[tactic(auto, unfolding(crate::specs::Changes::all_changes, crate::specs::Changes::later_spelling))]
fn read_sweep_step(alloc: Global, input: &mut Cursor) -> Result<Change, ReadFault>
    ensures { GivesField all_changes (11 ∷ input.old) input.new result }
{
    let moment = Field::read_from(alloc, input)?;
    Ok(Change::SweepStep { moment })
}

#[tactic(auto, unfolding(crate::specs::Changes::all_changes, crate::specs::Changes::later_spelling))]
fn read_put_hook(alloc: Global, input: &mut Cursor) -> Result<Change, ReadFault>
    ensures { GivesField all_changes (12 ∷ input.old) input.new result }
{
    let (moment, hook) = Field::read_from(alloc, input)?;
    Ok(Change::PutHook { moment, hook })
}

#[tactic(auto, unfolding(crate::specs::Changes::all_changes, crate::specs::Changes::later_spelling))]
fn read_drop_hook(alloc: Global, input: &mut Cursor) -> Result<Change, ReadFault>
    ensures { GivesField all_changes (13 ∷ input.old) input.new result }
{
    let (moment, url) = Field::read_from(alloc, input)?;
    Ok(Change::DropHook { moment, url })
}

#[tactic(auto, unfolding(crate::specs::Changes::all_changes, crate::specs::Changes::later_spelling, crate::specs::Changes::last_spelling))]
fn read_delivered(alloc: Global, input: &mut Cursor) -> Result<Change, ReadFault>
    ensures { GivesField all_changes (14 ∷ input.old) input.new result }
{
    let (moment, event) = Field::read_from(alloc, input)?;
    Ok(Change::Delivered { moment, event })
}

#[tactic(auto, unfolding(crate::specs::Changes::all_changes, crate::specs::Changes::later_spelling, crate::specs::Changes::last_spelling))]
fn read_store_with_digest(alloc: Global, input: &mut Cursor) -> Result<Change, ReadFault>
    ensures { GivesField all_changes (15 ∷ input.old) input.new result }
{
    Ok(Change::Store {
        moment: Field::read_from(alloc, input)?,
        object: Field::read_from(alloc, input)?,
        start_block: Field::read_from(alloc, input)?,
        length: Field::read_from(alloc, input)?,
        digest: Some(Field::read_from(alloc, input)?),
    })
}

// ---- writing

/// The number of a change's kind.
pub(crate) fn kind_of(change: &Change) -> u8
    ensures { result ≡ change_kind change.now }
{
    match change {
        Change::PutFlow { .. } => 1,
        Change::SetFlow { .. } => 2,
        Change::SetSource { .. } => 3,
        Change::DropFlow { .. } => 4,
        Change::Allocate { .. } => 5,
        Change::Store { digest: None, .. } => 6,
        Change::AddSegments { .. } => 7,
        Change::CutSegments { .. } => 8,
        Change::AskDelete { .. } => 9,
        Change::DeleteStep { .. } => 10,
        Change::SweepStep { .. } => 11,
        Change::PutHook { .. } => 12,
        Change::DropHook { .. } => 13,
        Change::Delivered { .. } => 14,
        Change::Store {
            digest: Some(_),
            ..
        } => 15,
    }
}

/// A change's moment, in seconds since 1970-01-01T00:00:00Z.
pub fn moment_of(change: &Change) -> u64
    ensures { result ≡ moment_of change.now }
{
    match change {
        Change::PutFlow { moment, .. }
        | Change::SetFlow { moment, .. }
        | Change::SetSource { moment, .. }
        | Change::DropFlow { moment, .. }
        | Change::Allocate { moment, .. }
        | Change::Store { moment, .. }
        | Change::AddSegments { moment, .. }
        | Change::CutSegments { moment, .. }
        | Change::AskDelete { moment, .. }
        | Change::DeleteStep { moment }
        | Change::SweepStep { moment }
        | Change::PutHook { moment, .. }
        | Change::DropHook { moment, .. }
        | Change::Delivered { moment, .. } => *moment,
    }
}

/// Writes two fields, one after the other.
fn write_both<A: Field, B: Field>(
    alloc: Global,
    first: &A,
    second: &B,
    out: &mut Text,
) -> Result<(), Memory>
    requires { (pair A.spelling B.spelling).asks (first.now, second.now) }
    ensures { OnOk result (WritesValue (pair A.spelling B.spelling) out.old (first.now, second.now) out.new) }
{
    first.write_to(alloc, out)?;
    second.write_to(alloc, out)?;
    Ok(())
}
