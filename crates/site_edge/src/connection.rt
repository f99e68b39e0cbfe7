//! A connection over TCP, whose peer may take its time, but not all time.
ghost use Rattle.std.specs.Io.{ReadsAtMost};

use crate::head_end::HeadEnd;
use crate::limits::{FAREWELL, FAREWELL_BYTES, LOOK, PAUSE, QUIET, SHORT_FAREWELL};
use crate::pace::Pace;
use crate::ready::{wait_for_any, wait_for_bytes, wait_for_end, wait_for_room};
use crate::stopwatch::steady_micros;
use std::io;
use std::io::{ErrorKind, Read, Write};
use std::net::{Shutdown, TcpListener, TcpStream};

/// How an interim answer begins, which ends no request (RFC 9110, section 15.2).
const INTERIM: &[u8] = b"HTTP/1.1 1";

/// What was heard since the last answer.
#[derive(Clone, Copy)]
enum Stage {
    /// Nothing, and there was no answer yet.
    Begun,
    /// Nothing.
    Answered,
    /// A part of a head.
    Head,
    /// A head, and perhaps a part of a body.
    Body,
}

/// A connection, and how long its peer was waited for. Its socket never waits by itself.
#[derive(Drop)]
pub(crate) struct Connection {
    stream: TcpStream,
    stage: Stage,
    head: HeadEnd,
    hearing: Pace,
    saying: Pace,
    quiet: u64,
    is_awaited: bool,
    has_failed: bool,
}

impl Connection {
    /// The connection of the next client, which is not held up by what is said in small parts. One that went
    /// before it was taken is passed over.
    pub(crate) fn accept(listener: &TcpListener) -> io::Result<Connection> {
        for _ in 0..u64::MAX {
            match listener.accept() {
                Ok((stream, _)) => return Connection::over(stream),
                Err(error) if error.kind() == ErrorKind::ConnectionAborted => {}
                Err(error) => return Err(error),
            }
        }
        Err(io::Error::from(ErrorKind::ConnectionAborted))
    }

    fn over(stream: TcpStream) -> io::Result<Connection> {
        stream.set_nonblocking(true)?;
        stream.set_nodelay(true)?;
        Ok(Connection {
            stream,
            stage: Stage::Begun,
            head: HeadEnd::new(),
            hearing: Pace::new(),
            saying: Pace::new(),
            quiet: 0,
            is_awaited: false,
            has_failed: false,
        })
    }

    /// Hears some bytes of the peer; none at the end of its bytes. It fails where the peer takes longer than it
    /// may.
    pub(crate) fn hear(&mut self, listener: &TcpListener, out: &mut [u8]) -> io::Result<usize>
        ensures { ReadsAtMost result out.new }
    {
        let heard = self.read(listener, out);
        match heard {
            Ok(count) => self.note_heard(&out[..count]),
            Err(_) => self.has_failed = true,
        }
        heard
    }

    /// Tells the peer all of these bytes. It fails where the peer takes longer than it may.
    pub(crate) fn say(&mut self, bytes: &[u8]) -> io::Result<()> {
        let said = self.write(bytes);
        match said {
            Ok(()) => self.note_said(bytes),
            Err(_) => self.has_failed = true,
        }
        said
    }

    /// Tells the peer that no more will be said, and reads what it still sends, up to its end. Where that is more
    /// than is taken, the peer has the rest of the time to read what it was told.
    pub(crate) fn part(&mut self) -> io::Result<()> {
        self.stream.shutdown(Shutdown::Write)?;
        let begun = steady_micros();
        let patience = self.farewell();
        let mut taken: u64 = 0;
        let mut piece = [0; 16_384];
        for _ in 0..u64::MAX {
            let left = patience.saturating_sub(steady_micros().saturating_sub(begun));
            if left == 0 {
                break;
            }
            if taken >= FAREWELL_BYTES {
                wait_for_end(&self.stream, left);
                break;
            }
            match self.stream.read(&mut piece) {
                Ok(0) => break,
                Ok(count) => taken = taken.saturating_add(count as u64),
                Err(error) if error.kind() == ErrorKind::WouldBlock => {
                    wait_for_bytes(&self.stream, left);
                }
                Err(error) if error.kind() == ErrorKind::Interrupted => {}
                Err(error) => return Err(error),
            }
        }
        Ok(())
    }

    fn farewell(&self) -> u64 {
        if self.has_failed {
            SHORT_FAREWELL
        } else {
            FAREWELL
        }
    }

    fn read(&mut self, listener: &TcpListener, out: &mut [u8]) -> io::Result<usize>
        ensures { ReadsAtMost result out.new }
    {
        for _ in 0..u64::MAX {
            match self.stream.read(out) {
                Err(error) if error.kind() == ErrorKind::WouldBlock => {
                    self.wait_to_hear(listener)?;
                }
                Err(error) if error.kind() == ErrorKind::Interrupted => {}
                answer => return answer,
            }
        }
        Err(io::Error::from(ErrorKind::TimedOut))
    }

    /// Waits once for bytes of the peer, if it may take more time.
    fn wait_to_hear(&mut self, listener: &TcpListener) -> io::Result<()> {
        let left = self.hearing_left();
        if left == 0 {
            return Err(io::Error::from(ErrorKind::TimedOut));
        }
        let begun = steady_micros();
        if self.is_awaited {
            wait_for_bytes(&self.stream, left);
        } else {
            self.is_awaited = wait_for_any(&self.stream, listener, left);
        }
        let waited = steady_micros().saturating_sub(begun);
        self.hearing.wait(waited);
        self.quiet = self.quiet.saturating_add(waited);
        Ok(())
    }

    /// For how many microseconds more the peer may send nothing.
    fn hearing_left(&self) -> u64 {
        let left = self.hearing.left();
        if !self.is_awaited {
            return left;
        }
        let most = match self.stage {
            Stage::Answered => PAUSE,
            Stage::Begun | Stage::Head | Stage::Body => QUIET,
        };
        left.min(most.saturating_sub(self.quiet))
    }

    /// Notes what was heard: the time of a head begins with its first byte, and that of a body behind the head.
    fn note_heard(&mut self, heard: &[u8]) {
        self.quiet = 0;
        self.saying = Pace::new();
        match self.stage {
            Stage::Begun | Stage::Answered => {
                self.stage = Stage::Head;
                self.head = HeadEnd::new();
                self.hearing = Pace::new();
            }
            Stage::Head | Stage::Body => {}
        }
        self.hearing.move_on(heard.len());
        if matches!(self.stage, Stage::Head) && self.head.is_in(heard) {
            self.stage = Stage::Body;
            self.hearing = Pace::new();
        }
    }

    fn write(&mut self, bytes: &[u8]) -> io::Result<()> {
        let mut said = 0;
        for _ in 0..u64::MAX {
            if said >= bytes.len() {
                return Ok(());
            }
            match self.stream.write(&bytes[said..]) {
                Ok(0) => return Err(io::Error::from(ErrorKind::WriteZero)),
                Ok(count) => {
                    said += count;
                    self.saying.move_on(count);
                }
                Err(error) if error.kind() == ErrorKind::WouldBlock => self.wait_to_say()?,
                Err(error) if error.kind() == ErrorKind::Interrupted => {}
                Err(error) => return Err(error),
            }
        }
        Err(io::Error::from(ErrorKind::TimedOut))
    }

    /// Waits until the peer takes more, for a moment at most, as the system tells that only of a third of what it
    /// keeps. It fails where the peer may take no more time.
    fn wait_to_say(&mut self) -> io::Result<()> {
        let begun = steady_micros();
        wait_for_room(&self.stream, self.saying.left().min(LOOK));
        self.saying.wait(steady_micros().saturating_sub(begun));
        if self.saying.left() == 0 {
            return Err(io::Error::from(ErrorKind::TimedOut));
        }
        Ok(())
    }

    /// Notes that an answer was said, or a part of one.
    fn note_said(&mut self, bytes: &[u8]) {
        if bytes.starts_with(INTERIM) {
            return;
        }
        self.stage = Stage::Answered;
        self.hearing = Pace::new();
        self.quiet = 0;
    }
}
