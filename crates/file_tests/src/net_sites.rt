//! A client of a TCP listener.
use disk_trait::Text;
use site_edge::{LinkFailed, NetSite, Site, StoreFile};
use std::io::{Read, Write};
use std::net::{Shutdown, TcpListener, TcpStream};
use std::test::Fail;

/// What one peer sends: how many bytes are heard, these, and how many behind them. It is told `said`.
fn serve_once<S: Site>(site: &mut S) -> Result<(usize, [u8; 5], usize), LinkFailed> {
    let mut heard = [0; 5];
    if !site.next_peer()? {
        return Ok((0, heard, 0));
    }
    let count = site.hear(&mut heard)?;
    let behind = site.hear(&mut [0; 5])?;
    site.say(b"said")?;
    site.close_peer();
    Ok((count, heard, behind))
}

#[test]
fn a_client_is_heard_and_told(rt: HostRuntime) -> Result<(), Fail> {
    let path = Text::from_bytes(rt.alloc(), b"served")?;
    let file = StoreFile::make(&rt, &path, 0)?;
    let listener = TcpListener::bind(&rt, "127.0.0.1:0")?;
    let mut client = TcpStream::connect(&rt, listener.local_addr()?)?;
    client.write_all(b"GET")?;
    client.shutdown(Shutdown::Write)?;

    let mut site = NetSite::new(file, listener);
    assert_eq!(rt; serve_once(&mut site)?, (3, *b"GET\0\0", 0));
    let mut told = [0; 5];
    assert_eq!(rt; client.read(&mut told)?, 4);
    assert_eq!(rt; told.as_slice(), b"said\0".as_slice());
    assert_eq!(rt; client.read(&mut told)?, 0);
    Ok(())
}
