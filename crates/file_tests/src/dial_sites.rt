//! Connections that are dialled.
use disk_trait::Text;
use site_edge::{Caller, DialSite, Site, StoreFile};
use std::io::{Read, Write};
use std::net::{Shutdown, TcpListener};
use std::test::Fail;

#[test]
fn a_listener_is_dialled_told_and_heard(rt: HostRuntime) -> Result<(), Fail> {
    let path = Text::from_bytes(rt.alloc(), b"dialled")?;
    let file = StoreFile::make(&rt, &path, 0)?;
    let listener = TcpListener::bind(&rt, "127.0.0.1:0")?;
    let port = listener.local_addr()?.port();

    let mut site = DialSite::new(file, &rt);
    site.dial(port)?;
    let (mut peer, _) = listener.accept()?;
    peer.write_all(b"200")?;
    peer.shutdown(Shutdown::Write)?;
    site.say(b"asked")?;
    let mut heard = [0; 5];
    assert_eq!(rt; site.hear(&mut heard)?, 3);
    assert_eq!(rt; heard.as_slice(), b"200\0\0".as_slice());
    assert_eq!(rt; site.hear(&mut heard)?, 0);
    site.close_peer();

    let mut told = [0; 6];
    assert_eq!(rt; peer.read(&mut told)?, 5);
    assert_eq!(rt; told.as_slice(), b"asked\0".as_slice());
    assert_eq!(rt; peer.read(&mut told)?, 0);
    Ok(())
}

#[test]
fn where_nobody_listens_nobody_is_dialled(rt: HostRuntime) -> Result<(), Fail> {
    let path = Text::from_bytes(rt.alloc(), b"refused")?;
    let file = StoreFile::make(&rt, &path, 0)?;
    let mut site = DialSite::new(file, &rt);
    let listener = TcpListener::bind(&rt, "127.0.0.1:0")?;
    let port = listener.local_addr()?.port();
    drop(listener);
    assert!(rt; site.dial(port).is_err());
    Ok(())
}
