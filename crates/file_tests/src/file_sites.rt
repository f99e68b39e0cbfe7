//! One connection over standard input and output.
use disk_trait::Text;
use site_edge::{FileSite, LinkFailed, Site, StoreFile};
use std::fs;
use std::fs::File;
use std::test::Fail;

#[test]
fn the_one_peer_is_heard_to_its_end(rt: HostRuntime) -> Result<(), Fail> {
    let path = Text::from_bytes(rt.alloc(), b"heard")?;
    fs::write(&rt, "request", "GET")?;
    let file = StoreFile::make(&rt, &path, 0)?;
    let mut site = FileSite::new(file, rt.stdin(), rt.stdout());
    assert_eq!(rt; site.next_peer(), Ok(true));

    libc::close(libc::STDIN_FILENO);
    let mut heard = [0; 5];
    assert_eq!(rt;
        site.hear(&mut heard),
        Err(LinkFailed),
        "the input is closed"
    );
    // The next file that opens is standard input.
    let _input = File::open(&rt, "request")?;
    assert_eq!(rt; site.hear(&mut heard), Ok(3));
    assert_eq!(rt; heard.as_slice(), b"GET\0\0".as_slice());
    assert_eq!(rt; site.hear(&mut heard), Ok(0));

    site.say(b"said\n")?;
    site.close_peer();
    assert_eq!(rt; site.next_peer(), Ok(false));
    Ok(())
}
