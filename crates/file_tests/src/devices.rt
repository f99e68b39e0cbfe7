//! A device to begin with, and the one that never fails.
use disk_trait::{Disk, Memory, MemoryDisk, NumberList, SureDisk, Text};
use std::alloc::Global;
use std::test::Fail;

pub(crate) const ID: u128 = 0x00000000_0000_4000_8000_000000000001;

/// A device of so many bytes, none of them 0 or 1.
pub(crate) fn device(alloc: Global, length: usize) -> Result<MemoryDisk, Memory> {
    let bytes = Text::from_vec(vec![in alloc; 255u8; length]?);
    Ok(MemoryDisk::from_bytes(alloc, bytes, NumberList::new(alloc)))
}

#[test]
fn a_sure_disk_is_zero_but_where_it_was_written(rt: HostRuntime) -> Result<(), Fail> {
    let mut sure = SureDisk::new(rt.alloc(), 2)?;
    let mut out = [9; 2];
    sure.write_at(1, &[7])?;
    sure.read_at(0, &mut out)?;
    assert_eq!(rt; out.as_slice(), [0, 7].as_slice());
    Ok(())
}
