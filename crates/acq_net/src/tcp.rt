//! What a link and a port over TCP share.
ghost use Rattle.std.specs.Prelude.{◌≤◌, ◌≡◌, IfOk, IsSome, OnOk, is_some, length};
ghost use Rattle.acq_net.specs.Calls.{CountsOne};

use acq_outside::Fault;
use std::io;
use std::io::{ErrorKind, Read, Write};
use std::net::TcpStream;

/// Counts a fault.
pub fn count(faults: &mut u64) -> Fault
    ensures frame { CountsOne faults.old faults.new }
{
    *faults = faults.saturating_add(1);
    Fault
}

/// Writes all bytes to a connection, if there is one.
pub fn write(stream: &mut Option<TcpStream>, bytes: &[u8]) -> io::Result<()>
    ensures opened { OnOk result (IsSome stream.old) }
    ensures same { is_some stream.new ≡ is_some stream.old }
{
    match stream {
        Some(stream) => stream.write_all(bytes),
        None => Err(io::Error::from(ErrorKind::NotConnected)),
    }
}

/// Whether bytes wait to be read on a connection, if there is one. It waits for none, and the peer's end is no byte.
pub fn look(stream: &Option<TcpStream>) -> io::Result<bool>
    ensures opened { OnOk result (IsSome stream.now) }
{
    let Some(stream) = stream else {
        return Err(io::Error::from(ErrorKind::NotConnected));
    };
    let mut first = [0u8];
    stream.set_nonblocking(true)?;
    let waiting = stream.peek(&mut first);
    stream.set_nonblocking(false)?;
    match waiting {
        Ok(n) => Ok(n > 0),
        Err(error) if error.kind() == ErrorKind::WouldBlock => Ok(false),
        Err(error) => Err(error),
    }
}

/// Reads bytes of a connection, if there is one, again where a signal broke in.
pub fn read(stream: &mut Option<TcpStream>, out: &mut [u8]) -> io::Result<usize>
    ensures opened { OnOk result (IsSome stream.old) }
    ensures same { is_some stream.new ≡ is_some stream.old }
    ensures within { IfOk result (λ n. n ≤ length out.old) }
    ensures room { length out.new ≡ length out.old }
{
    let Some(stream) = stream else {
        return Err(io::Error::from(ErrorKind::NotConnected));
    };
    for _ in 0..u64::MAX {
        match stream.read(out) {
            Err(error) if error.kind() == ErrorKind::Interrupted => {}
            done => return done,
        }
    }
    Err(io::Error::from(ErrorKind::Interrupted))
}
