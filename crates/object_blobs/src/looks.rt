//! Looks at the holes of a space, each at the key of its first block. The steps of a look aren't anybody's.
ghost use Rattle.std.specs.Prelude.{◌≡◌, ◌+◌, ◌-◌, ◌^◌, ◌<◌, ◌≤◌, ◌&&◌, IsTrue, filter, nat_le, nat_lt, option_map, pos};
ghost use Rattle.shared_tree.specs.Pairs.{first, is_above, is_up_to, last, values};
ghost use Rattle.object_blobs.specs.Holes.{is_free_place};
ghost use Rattle.object_blobs.specs.Within.Keys.{AreHoles, Holds, first_start, joined_end, joined_start};

use crate::space::Hole;
use shared_tree::{Steps, Version};
use std::sync::ledger::{Blank, Ledger};

/// The key of the hole that begins at a block.
pub(crate) fn key_of(start: u64) -> i128
    ensures { result ≡ pos start }
{
    i128::from(start)
}

/// The hole that has so many free blocks from this one on.
pub(crate) fn holding<L: Ledger>(
    holes: &Version<Hole>,
    start: u64,
    blocks: u64,
    blank: Blank,
) -> Hole
    requires kept { AreHoles holes.now }
    requires free { IsTrue (is_free_place (values holes.now) blocks start) }
    requires some { 0 < blocks }
    requires name { blank.name ≡ L.name }
    requires parts { blank.parts ≡ L.parts }
    requires one { 0 < L.parts }
    ensures { Holds holes.now start blocks result }
{
    holes.keys_rise();
    let mut steps = Steps::<L>::new(blank);
    let Some((_, hole)) = holes.at_or_before(key_of(start), &mut steps) else {
        unreachable!()
    };
    *hole
}

/// Whether so many blocks from this one on are free.
pub(crate) fn has_place<L: Ledger>(
    holes: &Version<Hole>,
    start: u64,
    blocks: u64,
    blank: Blank,
) -> bool
    requires kept { AreHoles holes.now }
    requires some { 0 < blocks }
    requires name { blank.name ≡ L.name }
    requires parts { blank.parts ≡ L.parts }
    requires one { 0 < L.parts }
    ensures { result ≡ is_free_place (values holes.now) blocks start }
{
    let mut steps = Steps::<L>::new(blank);
    match holes.at_or_before(key_of(start), &mut steps) {
        Some((_, hole)) => reaches(hole, start, blocks),
        None => false,
    }
}

/// Whether a hole that begins up to a block has so many blocks from that one on.
fn reaches(hole: &Hole, start: u64, blocks: u64) -> bool
    requires fits { hole.now.start + hole.now.blocks < 2 ^ 64 }
    ensures { result ≡ (nat_lt start (hole.now.start + hole.now.blocks)
        && nat_le blocks (hole.now.start + hole.now.blocks - start)) }
{
    let end = hole.start + hole.blocks;
    start < end && blocks <= end - start
}

/// Where free blocks that end at this one begin.
pub(crate) fn joined_start<L: Ledger>(holes: &Version<Hole>, start: u64, blank: Blank) -> u64
    requires kept { AreHoles holes.now }
    requires name { blank.name ≡ L.name }
    requires parts { blank.parts ≡ L.parts }
    requires one { 0 < L.parts }
    ensures first { result ≡ joined_start start (last (filter (is_up_to (pos start)) holes.now)) }
    ensures within { result ≤ start }
{
    let mut steps = Steps::<L>::new(blank);
    match holes.at_or_before(key_of(start), &mut steps) {
        Some((_, hole)) if hole.start + hole.blocks == start => hole.start,
        _ => start,
    }
}

/// Where free blocks from `start` on that end before `end` end.
pub(crate) fn joined_end<L: Ledger>(
    holes: &Version<Hole>,
    start: u64,
    end: u64,
    blank: Blank,
) -> u64
    requires kept { AreHoles holes.now }
    requires name { blank.name ≡ L.name }
    requires parts { blank.parts ≡ L.parts }
    requires one { 0 < L.parts }
    ensures last { result ≡ joined_end end (first (filter (is_above (pos start)) holes.now)) }
    ensures within { end ≤ result }
{
    let mut steps = Steps::<L>::new(blank);
    match holes.after(key_of(start), &mut steps) {
        Some((_, hole)) if hole.start == end => end + hole.blocks,
        _ => end,
    }
}

/// The start of the first hole that has so many blocks.
pub(crate) fn first_fitting<L: Ledger>(
    holes: &Version<Hole>,
    blocks: u64,
    blank: Blank,
) -> Option<u64>
    requires kept { AreHoles holes.now }
    requires name { blank.name ≡ L.name }
    requires parts { blank.parts ≡ L.parts }
    requires one { 0 < L.parts }
    ensures { result ≡ first_start blocks (values holes.now) }
{
    holes.keys_rise();
    let mut steps = Steps::<L>::new(blank);
    // It is below the key of each hole.
    let mut key = -1;
    'holes: while let Some((start, hole)) = holes.after(key, &mut steps) {
        if blocks <= hole.blocks {
            return Some(hole.start);
        }
        key = start;
    }
    None
}
