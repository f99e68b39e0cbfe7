//! The standard streams as sinks.
ghost use Rattle.std.specs.Prelude.{◌≡◌, [], false, is_ok};
ghost use Rattle.disk_trait.specs.Calls.{IsCounted};

use crate::fault::counted;
use crate::streams::{has_room, most_bytes};
use crate::{Aside, Sink, SinkFailed};
use std::io;
use std::io::{ErrorKind, Stderr, Stdout};
use std::marker::Model;

#[derive(Clone, Copy)]
enum Stream {
    Output(Stdout),
    Error(Stderr),
    Nowhere,
}

/// The bytes of a line that are kept back until its end.
const LINE: usize = 256;

/// Hands each line to the system in one call, once its end was put, and a longer text at once. It doesn't tell
/// what the system took. Contracts see the count of its faults.
#[derive(Drop)]
pub struct HostSink {
    stream: Stream,
    line: [u8; LINE],
    kept: usize,
    faults: u64,
    aside: Option<Aside>,
}

impl Model for HostSink {
    ghost use Rattle.std.specs.Prelude.{◌≤◌, ℕ};
    ghost use Rattle.site_edge.specs.declared.host_sink.TheConstants.{LINE};

    ghost Value = { ℕ };

    ghost view = { λ s. s.faults };

    ghost invariant = { λ s. s.kept ≤ LINE };
}

impl HostSink {
    /// The standard output as a sink.
    pub fn output(stream: Stdout) -> HostSink
        ensures { result ≡ 0 }
    {
        HostSink::over(Stream::Output(stream))
    }

    /// The standard error as a sink.
    pub fn error(stream: Stderr) -> HostSink
        ensures { result ≡ 0 }
    {
        HostSink::over(Stream::Error(stream))
    }

    /// What takes all and shows nothing, where neither stream may be written to.
    pub fn nowhere() -> HostSink
        ensures { result ≡ 0 }
    {
        HostSink::over(Stream::Nowhere)
    }

    /// From now on progress is taken off the terminal before a line is put.
    pub fn wipe_before(&mut self, aside: Aside)
        ensures { self.new ≡ self.old }
    {
        self.aside = Some(aside);
    }

    fn over(stream: Stream) -> HostSink
        ensures { result ≡ 0 }
    {
        HostSink {
            stream,
            line: [0; LINE],
            kept: 0,
            faults: 0,
            aside: None,
        }
    }

    /// Hands on what was kept of a line, and then these bytes.
    fn hand_on(&mut self, bytes: &[u8]) -> Result<(), SinkFailed>
        ensures { IsCounted (is_ok result) self.old self.new }
    {
        if let Some(aside) = &self.aside {
            aside.wipe();
        }
        let (line, _) = self.line.split_at(self.kept);
        let answer = write(self.stream, line).and_then(|()| write(self.stream, bytes));
        self.kept = 0;
        counted(answer, &mut self.faults, SinkFailed)
    }
}

impl Sink for HostSink {
    ghost faults = { λ faults. faults };

    ghost tells = { λ _. false };

    ghost taken = { λ _. [] };

    ghost fails = { λ _ _ _. Unit {0} };

    fn put(&mut self, bytes: &[u8]) -> Result<(), SinkFailed> {
        if bytes.len() > LINE - self.kept {
            return self.hand_on(bytes);
        }
        let end = self.kept + bytes.len();
        self.line[self.kept..end].copy_from_slice(bytes);
        self.kept = end;
        if bytes.last() == Some(&b'\n') {
            self.hand_on(&[])
        } else {
            Ok(())
        }
    }
}

/// Hands these bytes to the system, if there are any, unless the stream is a file that may not get so long.
fn write(stream: Stream, bytes: &[u8]) -> io::Result<()> {
    match stream {
        Stream::Output(output) if has_room(libc::STDOUT_FILENO, bytes.len(), most_bytes()) => {
            output.write_all(bytes)
        }
        Stream::Error(error) if has_room(libc::STDERR_FILENO, bytes.len(), most_bytes()) => {
            error.write_all(bytes)
        }
        Stream::Nowhere => Ok(()),
        Stream::Output(_) | Stream::Error(_) => Err(io::Error::from(ErrorKind::FileTooLarge)),
    }
}
