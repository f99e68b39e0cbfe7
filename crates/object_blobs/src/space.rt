//! Which media blocks are free: the holes between the extents, as a value.
ghost use Rattle.std.specs.Prelude.{◌≡◌, ◌+◌, ◌<◌, ◌≤◌, IfOk, IsTrue, pos};
ghost use Rattle.media_rows.specs.declared.object.ObjectRow.{ObjectRow};
ghost use Rattle.media_rows.specs.Objects.{free_place, is_free};
ghost use Rattle.std.specs.Prelude.{List};
ghost use Rattle.object_blobs.specs.Holes.{HasHoles, IsAllFree, GivesBlocks, IsPlaceTaken, IsToldByFree, LeavesFree, is_free_place, is_taken_place, least_place};

use crate::changes::{with_front, with_hole, with_rest, without_joined};
use crate::looks::{first_fitting, has_place, holding, joined_end, joined_start};
use disk_trait::Memory;
use shared_tree::Version;
use std::alloc::Global;
use std::marker::{Brand, Model};
use std::sync::ledger::Blank;

/// Free media blocks in a row, between blocks that aren't free: the number of the first one, and how many
/// there are.
#[derive(Clone, Copy, Debug, PartialEq, Eq)]
pub struct Hole {
    pub start: u64,
    pub blocks: u64,
}

/// The media blocks of a store, and which of them are free. Contracts see the number of all blocks and the
/// holes by rising start, no two of which touch. A change makes a new space and leaves this one as it is.
#[derive(Drop)]
pub struct Space {
    blocks: u64,
    holes: Version<Hole>,
}

impl Model for Space {
    ghost use Rattle.shared_tree.specs.Pairs.{values};
    ghost use Rattle.object_blobs.specs.Holes.{Area};
    ghost use Rattle.object_blobs.specs.Within.Keys.{AreHolesOf};

    ghost Value = { Area };

    ghost view = { λ s. record { blocks = s.blocks; holes = values s.holes } };

    ghost invariant = { λ s. AreHolesOf s.blocks s.holes };
}

impl Space {
    /// A space of so many blocks, all of which are free.
    pub fn new(alloc: Global, blocks: u64) -> Result<Space, Memory>
        ensures { IfOk result (IsAllFree blocks) }
    {
        let whole = Hole { start: 0, blocks };
        Ok(Space {
            blocks,
            holes: with_rest(alloc, Version::empty(), whole)?,
        })
    }

    /// The same space once more. The error is for a count of owners that is full.
    pub fn share(&self) -> Result<Space, Memory>
        ensures { IfOk result (λ space. space ≡ self.now) }
    {
        Ok(Space {
            blocks: self.blocks,
            holes: self.holes.share()?,
        })
    }

    /// Does nothing. It tells what holds of each space: its holes lie in it, no two of them touch, and so
    /// its free blocks tell its holes.
    pub fn has_holes(&self)
        ensures holes { HasHoles self.now }
        ensures told { IsToldByFree self.now }
    {
        // Where a field is read, the invariant is known.
        let _blocks = self.blocks;
    }

    /// The first block of the least place at which so many blocks are free in a row, and `None` exactly where
    /// there is none. No blocks are placed at 0. It takes no memory, and looks at the holes in order up to
    /// the first one that is large enough: at most all of them, with 2·digits(n) steps for each of n holes.
    pub fn place(&self, blocks: u64) -> Option<u64>
        ensures least { result ≡ least_place self.now blocks }

        // It is the library's place, where the free blocks are those that its objects leave.
        ensures library { (objects : List ObjectRow) → LeavesFree objects self.now
            → result ≡ free_place objects self.now.blocks blocks }
    {
        if blocks == 0 {
            return Some(0);
        }
        // The number of its blocks is a `u64`, and so is the end of each hole.
        let _blocks = self.blocks;
        first_fitting::<Brand>(&self.holes, blocks, Blank::new(1))
    }

    /// Whether so many blocks from this one on are all free. It takes no memory.
    pub fn is_free(&self, start: u64, blocks: u64) -> bool
        ensures free { result ≡ is_free_place self.now.holes blocks start }

        // It is the library's answer, where the free blocks are those that its objects leave.
        ensures library { (objects : List ObjectRow) → LeavesFree objects self.now → 0 < blocks
            → result ≡ is_free objects self.now.blocks blocks start }
    {
        if blocks == 0 {
            return true;
        }
        // As in `place`.
        let _blocks = self.blocks;
        has_place::<Brand>(&self.holes, start, blocks, Blank::new(1))
    }

    /// Takes so many blocks from this one on, all of which are free.
    pub fn take(&self, alloc: Global, start: u64, blocks: u64) -> Result<Space, Memory>
        requires free { IsTrue (is_free_place self.now.holes blocks start) }
        ensures { IfOk result (IsPlaceTaken start blocks self.now) }
    {
        if blocks == 0 {
            return self.share();
        }
        // As in `place`.
        let _blocks = self.blocks;
        let hole = holding::<Brand>(&self.holes, start, blocks, Blank::new(1));
        let front = Hole {
            start: hole.start,
            blocks: start - hole.start,
        };
        let rest = Hole {
            start: start + blocks,
            blocks: hole.blocks - front.blocks - blocks,
        };
        let holes = with_front(alloc, &self.holes, front)?;
        Ok(Space {
            blocks: self.blocks,
            holes: with_rest(alloc, holes, rest)?,
        })
    }

    /// Gives so many blocks from this one on back, which are the space's and none of which is free.
    pub fn give(&self, alloc: Global, start: u64, blocks: u64) -> Result<Space, Memory>
        requires inside { start + blocks ≤ self.now.blocks }
        requires taken { IsTrue (is_taken_place self.now.holes blocks start) }
        ensures { IfOk result (GivesBlocks start blocks self.now) }
    {
        if blocks == 0 {
            return self.share();
        }
        // As in `place`.
        let _blocks = self.blocks;
        let end = start + blocks;
        let first = joined_start::<Brand>(&self.holes, start, Blank::new(1));
        let last = joined_end::<Brand>(&self.holes, start, end, Blank::new(1));
        let hole = Hole {
            start: first,
            blocks: last - first,
        };
        let others = without_joined(alloc, &self.holes, end, last)?;
        Ok(Space {
            blocks: self.blocks,
            holes: with_hole(alloc, &others, hole)?,
        })
    }
}
