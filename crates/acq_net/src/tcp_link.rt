//! A connection over TCP.
ghost use Rattle.std.specs.Prelude.{◌≤◌, ◌≡◌, IfOk, IsSome, OnOk, is_some, length};

use crate::Link;
use crate::tcp::{count, look, read, write};
use acq_base::Text;
use acq_outside::Fault;
use std::io;
use std::io::ErrorKind;
use std::net::{Net, TcpStream, ToSocketAddrs};
use std::time::Duration;

/// How long an address may take to answer a connect, in seconds.
const CONNECT_SECONDS: u64 = 30;

/// How long a peer may neither send nor take a byte, in seconds.
const SILENT_SECONDS: u64 = 30;

/// A link over TCP. The addresses that a host's name has are tried in turn. An address that doesn't answer within 30
/// seconds is given up, and a peer that is silent for 30 seconds is a fault. It tells no bytes.
///
/// A `send` behind another one on the same connection is a fault where something waits there to be received, since that is
/// no answer to what is sent now. A peer that resets the connection behind a `send`, before a byte is received, has ended;
/// one that resets a kept connection before a further `send` too, which its next `receive` tells. Any other reset is a fault.
#[derive(Drop)]
pub struct TcpLink<R: Drop> {
    rt: R,
    stream: Option<TcpStream>,
    /// Whether a `send` was done on the connection.
    asked: bool,
    /// Whether a byte was received since the last `send`.
    answered: bool,
    faults: u64,
    made: u64,
    ends: u64,
}

impl<R: Net<Stream = TcpStream> + Drop> TcpLink<R> {
    ghost use Rattle.std.specs.Prelude.{◌≡◌};
    ghost use Rattle.acq_net.specs.TcpLink.{faults_of};

    /// A link that isn't connected yet.
    pub fn new(rt: R) -> TcpLink<R>
        ensures { faults_of result ≡ 0 }
    {
        TcpLink {
            rt,
            stream: None,
            asked: false,
            answered: false,
            faults: 0,
            made: 0,
            ends: 0,
        }
    }

    /// How often it failed.
    pub fn faults(&self) -> u64
        ensures { result ≡ faults_of self.now }
    {
        self.faults
    }
}

impl<R: Net<Stream = TcpStream> + Drop> Link for TcpLink<R> {
    ghost use Rattle.std.specs.Prelude.{None, is_some};

    ghost faults = { λ link. link.faults };

    ghost made = { λ link. link.made };

    ghost ends = { λ link. link.ends };

    ghost opened = { λ link. is_some link.stream };

    ghost answered = { λ link. link.answered };

    ghost talk = { λ _. None };

    ghost former = { λ _. None };

    ghost world = { λ _. None };

    ghost due = { λ _. None };

    fn connect(&mut self, host: &Text, port: u16) -> Result<(), Fault> {
        self.made = self.made.saturating_add(1);
        self.stream = None;
        self.asked = false;
        self.answered = false;
        match open(&self.rt, host.as_bytes(), port) {
            Ok(stream) => {
                self.stream = Some(stream);
                Ok(())
            }
            Err(_) => Err(count(&mut self.faults)),
        }
    }

    fn send(&mut self, bytes: &[u8]) -> Result<(), Fault> {
        let kept = self.asked;
        self.asked = true;
        self.answered = false;
        match ask(&mut self.stream, kept, bytes) {
            Ok(()) => Ok(()),
            Err(_) => {
                self.stream = None;
                Err(count(&mut self.faults))
            }
        }
    }

    fn receive(&mut self, out: &mut [u8]) -> Result<usize, Fault> {
        match heard(&mut self.stream, self.asked && !self.answered, out) {
            Ok(0) => {
                self.ends = self.ends.saturating_add(1);
                self.stream = None;
                Ok(0)
            }
            Ok(n) => {
                self.answered = true;
                Ok(n)
            }
            Err(_) => {
                self.stream = None;
                Err(count(&mut self.faults))
            }
        }
    }

    fn close(&mut self) {
        self.stream = None;
    }
}

/// Sends all bytes of a request. On a kept connection nothing may wait to be received, and one that the peer has reset is
/// left to the next `receive`, which tells its end.
fn ask(stream: &mut Option<TcpStream>, kept: bool, bytes: &[u8]) -> io::Result<()>
    ensures opened { OnOk result (IsSome stream.old) }
    ensures same { is_some stream.new ≡ is_some stream.old }
{
    if !kept {
        return write(stream, bytes);
    }
    match write_if_quiet(stream, bytes) {
        Err(error) if is_reset(&error) && stream.is_some() => Ok(()),
        done => done,
    }
}

/// Sends all bytes where nothing waits to be received.
fn write_if_quiet(stream: &mut Option<TcpStream>, bytes: &[u8]) -> io::Result<()>
    ensures opened { OnOk result (IsSome stream.old) }
    ensures same { is_some stream.new ≡ is_some stream.old }
{
    if look(stream)? {
        return Err(io::Error::from(ErrorKind::InvalidData));
    }
    write(stream, bytes)
}

/// Receives bytes. A reset is the peer's end where no byte of a response came behind the request.
fn heard(stream: &mut Option<TcpStream>, unanswered: bool, out: &mut [u8]) -> io::Result<usize>
    ensures opened { OnOk result (IsSome stream.old) }
    ensures same { is_some stream.new ≡ is_some stream.old }
    ensures within { IfOk result (λ n. n ≤ length out.old) }
    ensures room { length out.new ≡ length out.old }
{
    match read(stream, out) {
        Err(error) if unanswered && is_reset(&error) && stream.is_some() => Ok(0),
        done => done,
    }
}

/// Whether the peer has reset the connection.
fn is_reset(error: &io::Error) -> bool {
    matches!(
        error.kind(),
        ErrorKind::ConnectionReset | ErrorKind::BrokenPipe
    )
}

/// The host of a URI as the system looks it up: an IPv6 address stands there between brackets (RFC 3986, section 3.2.2).
fn host_name(host: &[u8]) -> io::Result<&str> {
    let name = match str::from_utf8(host) {
        Ok(name) => name,
        Err(_) => return Err(io::Error::from(ErrorKind::InvalidInput)),
    };
    match name.strip_prefix('[') {
        Some(inner) => Ok(inner.strip_suffix(']').unwrap_or(inner)),
        None => Ok(name),
    }
}

/// A connection to the first address of a host that answers.
fn open<R: Net<Stream = TcpStream>>(rt: &R, host: &[u8], port: u16) -> io::Result<TcpStream> {
    let mut last = io::Error::from(ErrorKind::NotFound);
    for address in (host_name(host)?, port).to_socket_addrs(rt)? {
        let within = Duration::from_secs(CONNECT_SECONDS);
        match TcpStream::connect_timeout(rt, &address, within) {
            Ok(stream) => return prepared(stream),
            Err(error) => last = error,
        }
    }
    Err(last)
}

/// Sends without delay, and lets nothing wait for a silent peer forever.
fn prepared(stream: TcpStream) -> io::Result<TcpStream> {
    let silent = Duration::from_secs(SILENT_SECONDS);
    stream.set_nodelay(true)?;
    stream.set_read_timeout(Some(silent))?;
    stream.set_write_timeout(Some(silent))?;
    Ok(stream)
}
