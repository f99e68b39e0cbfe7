//! The parts of a library from its rows.
ghost use Rattle.std.specs.Prelude.{◌≡◌, IfOk, IsTrue, Some};
ghost use Rattle.media_rows.specs.Good.{is_good, rises_by};
ghost use Rattle.media_rows.specs.Refusals.{Restores};
ghost use Rattle.media_rows.specs.Snapshot.{library_of};
ghost use Rattle.media_book.specs.Media.{are_media_good, given_media, media_of};
ghost use Rattle.core_parts.specs.Parts.{given_parts};
ghost use Rattle.core_rows.specs.Kinds.{kinds_of, library_of_kinds};
ghost use Rattle.core_restore.specs.Restored.{are_rows_of_good};
ghost use Rattle.core_restore.specs.Within.{AreInOrder, is_rest_good, library_from_kinds};

use crate::order::{by_serial, do_rise};
use crate::ties::are_tied;
use crate::values::are_values_good;
use core_parts::Parts;
use core_registry::{Registry, RegistryRows};
use core_rows::{Kinds, kinds_make_the_library, part_rows};
use disk_trait::Memory;
use media_book::{MediaBook, media_are_good};
use media_rows::{ApplyFault, RowList};
use std::alloc::Global;

/// The library of these rows, under this id and of so many media blocks, of 4,096 bytes. They are refused exactly
/// where they aren't the rows of a good library in the order of a snapshot.
pub fn parts_of_rows(
    alloc: Global,
    id: u128,
    blocks: u64,
    rows: RowList,
) -> Result<Parts, ApplyFault>
    ensures { Restores (are_rows_of_good id blocks rows) (library_of id blocks rows) (given_parts result) }
{
    kinds_make_the_library();
    if !do_rise(rows.items()) {
        return Err(ApplyFault::Refused);
    }
    let kinds = kinds_alone(alloc, rows)?;
    match kinds.next_serial {
        Some(next_serial) => parts_of_kinds(alloc, id, blocks, kinds, next_serial),
        None => Err(ApplyFault::Refused),
    }
}

/// Rows by their kinds. The list of all of them goes before anything else takes memory.
fn kinds_alone(alloc: Global, rows: RowList) -> Result<Kinds, Memory>
    ensures { IfOk result (λ kinds. kinds ≡ kinds_of rows) }
{
    part_rows(alloc, &rows)
}

/// The library of rows by their kinds. Segments come in any order.
fn parts_of_kinds(
    alloc: Global,
    id: u128,
    blocks: u64,
    mut kinds: Kinds,
    next_serial: u64,
) -> Result<Parts, ApplyFault>
    requires order { AreInOrder kinds }
    requires next { kinds.next_serial ≡ Some next_serial }
    ensures { Restores (is_good (library_of_kinds id blocks kinds))
        (library_of_kinds id blocks kinds) (given_parts result) }
{
    kinds.segments = by_serial(alloc, &kinds.segments)?;
    parts_of_lists(alloc, id, blocks, kinds, next_serial)
}

/// The library that has just these rows, in their order.
fn parts_of_lists(
    alloc: Global,
    id: u128,
    blocks: u64,
    kinds: Kinds,
    next_serial: u64,
) -> Result<Parts, ApplyFault>
    requires order { AreInOrder kinds }
    ensures { Restores (is_good (library_from_kinds id blocks next_serial kinds))
        (library_from_kinds id blocks next_serial kinds) (given_parts result) }
{
    media_are_good();
    if !are_values_good(alloc, &kinds, next_serial)? {
        return Err(ApplyFault::Refused);
    }
    match media_of(alloc, blocks, &kinds) {
        Ok(media) => with_rest(alloc, id, media, kinds, next_serial),
        Err(fault) => Err(fault),
    }
}

/// The library of these media, and of all else in the rows.
fn with_rest(
    alloc: Global,
    id: u128,
    media: MediaBook,
    kinds: Kinds,
    next_serial: u64,
) -> Result<Parts, ApplyFault>
    requires order { AreInOrder kinds }
    requires rising { IsTrue (rises_by (λ row. row.serial) kinds.segments) }
    requires media { media.media ≡ media_of (library_from_kinds 0 media.media.blocks 0 kinds) }
    ensures { let library = library_from_kinds id media.media.blocks next_serial kinds in
        Restores (is_rest_good library) library (given_parts result) }
{
    let rows = RegistryRows {
        sources: kinds.sources,
        flows: kinds.flows,
        requests: kinds.requests,
        hooks: kinds.hooks,
        events: kinds.events,
    };
    match Registry::from_rows(alloc, &rows, next_serial) {
        Ok(registry) => {
            let segments = kinds.segments.items();
            if !are_tied(alloc, registry.catalog(), segments, rows.requests.items())? {
                return Err(ApplyFault::Refused);
            }
            Ok(Parts::of(id, media, registry))
        }
        Err(fault) => Err(fault),
    }
}

/// The media of rows.
fn media_of(alloc: Global, blocks: u64, kinds: &Kinds) -> Result<MediaBook, ApplyFault>
    ensures { let media = media_of (library_from_kinds 0 blocks 0 kinds.now) in
        Restores (are_media_good media) media (given_media result) }
{
    match MediaBook::from_rows(alloc, blocks, kinds.segments.items(), kinds.objects.items())? {
        Some(media) => Ok(media),
        None => Err(ApplyFault::Refused),
    }
}
