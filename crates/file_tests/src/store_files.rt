//! The store's file on this machine.
use disk_trait::{Disk, Failed, Text};
use site_edge::StoreFile;
use std::fs;
use std::fs::File;
use std::rt::Files;
use std::test::Fail;

/// The last eight bytes of the first block; ones where the file is shorter.
fn bytes_at_the_border(file: &mut StoreFile) -> Result<[u8; 8], Failed> {
    let mut bytes = [1; 8];
    if file.len() >= 4096 {
        file.read_at(4088, &mut bytes)?;
    }
    Ok(bytes)
}

/// Makes a file of a block, writes to it, and says whether it can be opened once more meanwhile.
fn made<R: Files<File = File>>(rt: &R, path: &Text) -> Result<bool, Fail> {
    let mut file = StoreFile::make(rt, path, 4096)?;
    if file.len() >= 4096 {
        file.write_at(4090, b"flow")?;
    }
    file.sync()?;
    Ok(StoreFile::open(rt, path).is_ok())
}

/// The length of a file that is made this long, and its bytes at the border.
fn made_longer<R: Files<File = File>>(
    rt: &R,
    path: &Text,
    length: u64,
) -> Result<(u64, [u8; 8]), Fail> {
    let mut file = StoreFile::make(rt, path, length)?;
    Ok((file.len(), bytes_at_the_border(&mut file)?))
}

/// The length of a file that is opened, and its bytes at the border.
fn opened<R: Files<File = File>>(rt: &R, path: &Text) -> Result<(u64, [u8; 8]), Fail> {
    let mut file = StoreFile::open(rt, path)?;
    Ok((file.len(), bytes_at_the_border(&mut file)?))
}

const BORDER: [u8; 8] = *b"\0\0flow\0\0";

#[test]
fn a_file_keeps_what_was_written(rt: HostRuntime) -> Result<(), Fail> {
    let path = Text::from_bytes(rt.alloc(), b"kept")?;
    assert!(rt;
        StoreFile::open(&rt, &path).is_err(),
        "no file is there yet"
    );
    assert!(rt; !made(&rt, &path)?, "it is open already");
    assert_eq!(rt; made_longer(&rt, &path, 8192)?, (8192, BORDER));
    assert_eq!(rt;
        made_longer(&rt, &path, 4096)?,
        (8192, BORDER),
        "no file is shortened"
    );
    assert_eq!(rt; opened(&rt, &path)?, (8192, BORDER));
    fs::remove_file(&rt, "kept")?;
    Ok(())
}

#[test]
fn opening_and_sync_reach_the_disk(rt: HostRuntime) -> Result<(), Fail> {
    let null = Text::from_bytes(rt.alloc(), b"/dev/null")?;
    assert!(rt; StoreFile::open(&rt, &null).is_err(), "it can't be synced");

    let path = Text::from_bytes(rt.alloc(), b"closed")?;
    let mut file = StoreFile::make(&rt, &path, 4096)?;
    assert_eq!(rt; file.sync(), Ok(()));
    for descriptor in 3..64 {
        libc::close(descriptor);
    }
    assert_eq!(rt; file.sync(), Err(Failed), "all descriptors are closed");
    Ok(())
}

#[test]
fn a_file_in_place_of_standard_input_is_refused(rt: HostRuntime) -> Result<(), Fail> {
    let path = Text::from_bytes(rt.alloc(), b"store")?;
    StoreFile::make(&rt, &path, 4096)?;
    libc::close(libc::STDIN_FILENO);
    assert!(rt; StoreFile::open(&rt, &path).is_err());
    assert!(rt; StoreFile::make(&rt, &path, 8192).is_err());
    // The next file that opens is standard input: the store, under a descriptor of its own, leads there too.
    let _input = File::open(&rt, "store")?;
    assert!(rt; StoreFile::open(&rt, &path).is_err());
    Ok(())
}
