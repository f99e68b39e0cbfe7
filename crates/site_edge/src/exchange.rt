//! A connection over TCP that was dialled, and that ends by a deadline.
ghost use Rattle.std.specs.Io.{ReadsAtMost};

use crate::limits::{EXCHANGE, EXCHANGE_QUIET};
use crate::stopwatch::steady_micros;
use std::io;
use std::io::{ErrorKind, Read, Write};
use std::net::{Ipv4Addr, Net, SocketAddr, TcpStream};
use std::time::Duration;

/// The connection, and when it was dialled, in microseconds of the steady clock.
#[derive(Drop)]
pub(crate) struct Exchange {
    stream: TcpStream,
    begun: u64,
}

impl Exchange {
    /// Dials this port of 127.0.0.1.
    pub(crate) fn dial<R: Net<Stream = TcpStream>>(net: &R, port: u16) -> io::Result<Exchange> {
        let begun = steady_micros();
        let address = SocketAddr::from((Ipv4Addr::LOCALHOST, port));
        let patience = Duration::from_micros(EXCHANGE_QUIET);
        let stream = TcpStream::connect_timeout(net, &address, patience)?;
        stream.set_nodelay(true)?;
        Ok(Exchange { stream, begun })
    }

    /// Hears some bytes of the peer; none at the end of its bytes. It fails where nothing comes for too long, or
    /// the exchange takes too long in all.
    pub(crate) fn hear(&mut self, out: &mut [u8]) -> io::Result<usize>
        ensures { ReadsAtMost result out.new }
    {
        for _ in 0..u64::MAX {
            self.stream.set_read_timeout(Some(self.patience()?))?;
            match self.stream.read(out) {
                Err(error) if error.kind() == ErrorKind::Interrupted => {}
                answer => return answer,
            }
        }
        Err(io::Error::from(ErrorKind::TimedOut))
    }

    /// Tells the peer all of these bytes. It fails where none is taken for too long, or the exchange takes too long
    /// in all.
    pub(crate) fn say(&mut self, bytes: &[u8]) -> io::Result<()> {
        let mut said = 0;
        for _ in 0..u64::MAX {
            if said >= bytes.len() {
                return Ok(());
            }
            self.stream.set_write_timeout(Some(self.patience()?))?;
            match self.stream.write(&bytes[said..]) {
                Ok(0) => return Err(io::Error::from(ErrorKind::WriteZero)),
                Ok(count) => said += count,
                Err(error) if error.kind() == ErrorKind::Interrupted => {}
                Err(error) => return Err(error),
            }
        }
        Err(io::Error::from(ErrorKind::TimedOut))
    }

    /// For how long the peer may move no byte from now on.
    fn patience(&self) -> io::Result<Duration> {
        let spent = steady_micros().saturating_sub(self.begun);
        match EXCHANGE.saturating_sub(spent).min(EXCHANGE_QUIET) {
            0 => Err(io::Error::from(ErrorKind::TimedOut)),
            left => Ok(Duration::from_micros(left)),
        }
    }
}
