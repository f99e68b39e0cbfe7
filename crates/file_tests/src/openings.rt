//! How a long half is read.
use crate::devices::{ID, device};
use disk_trait::{Memory, MemoryDisk, NumberList, Text};
use media_journal::{Frame, JournalFault, format_device, open_journal};
use std::alloc::Global;
use std::test::Fail;

/// A store of 131 blocks with 64 of them a half, and rows of 70,000 bytes.
fn long_store(alloc: Global) -> Result<MemoryDisk, Fail> {
    let mut disk = device(alloc, 536_576)?;
    let rows = vec![in alloc; 7u8; 70_000]?;
    format_device(alloc, &mut disk, 131, 64, ID, &rows)?;
    Ok(disk)
}

/// Appends two records of 40,000 bytes.
fn append_twice(alloc: Global, disk: &mut MemoryDisk) -> Result<(), Fail> {
    let payload = vec![in alloc; 8u8; 40_000]?;
    let frame = Frame::new(alloc, &payload)?;
    let mut opened = open_journal(alloc, disk)?;
    opened.journal.append(disk, &frame)?;
    opened.journal.append(disk, &frame)?;
    Ok(())
}

/// A device of these bytes, of which no call was made.
fn again(alloc: Global, disk: &MemoryDisk) -> Result<MemoryDisk, Memory> {
    let image = Text::from_bytes(alloc, disk.image())?;
    Ok(MemoryDisk::from_bytes(alloc, image, NumberList::new(alloc)))
}

/// How many records a journal has, and its room.
fn opened_as(alloc: Global, disk: &mut MemoryDisk) -> Result<(usize, u64), JournalFault> {
    let opened = open_journal(alloc, disk)?;
    Ok((opened.found.items().len(), opened.journal.room()))
}

/// How many bytes each call of a device took.
fn lengths(alloc: Global, disk: &MemoryDisk) -> Result<NumberList, Memory> {
    let mut lengths = NumberList::new(alloc);
    for call in 1..=disk.calls() {
        lengths.push(disk.range_length(call).unwrap_or(0))?;
    }
    Ok(lengths)
}

/// A store of long rows and two records, of which no call was made.
fn whole_store(alloc: Global) -> Result<MemoryDisk, Fail> {
    let mut disk = long_store(alloc)?;
    append_twice(alloc, &mut disk)?;
    Ok(again(alloc, &disk)?)
}

#[test]
fn a_half_is_read_in_pieces(rt: HostRuntime) -> Result<(), Fail> {
    let mut disk = whole_store(rt.alloc())?;
    assert_eq!(rt; opened_as(rt.alloc(), &mut disk)?, (2, 112_126));
    let pieces: [u64; 6] = [41, 1, 65_536, 70_000, 65_536, 65_536];
    assert_eq!(rt; lengths(rt.alloc(), &disk)?.numbers(), pieces.as_slice());
    Ok(())
}
