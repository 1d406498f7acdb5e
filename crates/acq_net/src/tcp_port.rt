//! Connections that peers make over TCP.
ghost use Rattle.std.specs.Prelude.{◌≡◌, IfOk, IsSome, OnOk};

use crate::Port;
use crate::tcp::{count, read, write};
use acq_outside::Fault;
use std::io;
use std::io::ErrorKind;
use std::net::{Ipv4Addr, Net, TcpListener, TcpStream};
use std::time::Duration;

/// How long a peer may neither send nor take a byte, in seconds.
const SILENT_SECONDS: u64 = 30;

/// How long a peer may send nothing behind what it was sent, in seconds.
const KEPT_SECONDS: u64 = 10;

/// A listener, and the number of its port.
#[derive(Drop)]
struct Listening {
    listener: TcpListener,
    number: u16,
}

/// A port of the address 127.0.0.1, over TCP. A peer that was sent something and sends nothing behind it for 10 seconds is
/// given up, since others wait; so is one that connected and says nothing, or falls silent in what it says, for 30 seconds,
/// and one that takes no byte for so long. Each is a fault. A connection ends where it is closed, where the next one is
/// waited for, and with the port. The address may be bound again as soon as nobody listens there, whatever connections of
/// it are still ending, since std sets SO_REUSEADDR; while another listens there, `listen` is a fault. It tells no bytes.
#[derive(Drop)]
pub struct TcpPort<R: Drop> {
    rt: R,
    listening: Option<Listening>,
    stream: Option<TcpStream>,
    /// Whether a `send` was done on the connection, and nothing received behind it.
    kept: bool,
    faults: u64,
    lost: u64,
}

impl<R: Net<Listener = TcpListener, Stream = TcpStream> + Drop> TcpPort<R> {
    ghost use Rattle.std.specs.Prelude.{◌≡◌, None};
    ghost use Rattle.acq_net.specs.TcpPort.{at_of, faults_of, lost_of};

    /// A port that doesn't listen yet.
    pub fn new(rt: R) -> TcpPort<R>
        ensures faults { faults_of result ≡ 0 }
        ensures lost { lost_of result ≡ 0 }
        ensures at { at_of result ≡ None }
    {
        TcpPort {
            rt,
            listening: None,
            stream: None,
            kept: false,
            faults: 0,
            lost: 0,
        }
    }

    /// How often it failed.
    pub fn faults(&self) -> u64
        ensures { result ≡ faults_of self.now }
    {
        self.faults
    }

    /// How often it couldn't listen or accept.
    pub fn lost(&self) -> u64
        ensures { result ≡ lost_of self.now }
    {
        self.lost
    }
}

impl<R: Net<Listener = TcpListener, Stream = TcpStream> + Drop> Port for TcpPort<R> {
    ghost use Rattle.std.specs.Prelude.{None};
    ghost use Rattle.acq_net.specs.TcpPort.{at_of};

    ghost faults = { λ port. port.faults };

    ghost lost = { λ port. port.lost };

    ghost at = { at_of };

    ghost talks = { λ _. None };

    fn listen(&mut self, port: u16) -> Result<(), Fault> {
        self.listening = None;
        match bind(&self.rt, port) {
            Ok(listening) => {
                self.listening = Some(listening);
                Ok(())
            }
            Err(_) => {
                count(&mut self.lost);
                Err(count(&mut self.faults))
            }
        }
    }

    fn accept(&mut self) -> Result<(), Fault> {
        self.stream = None;
        self.kept = false;
        match next_stream(&self.listening) {
            Ok(stream) => {
                self.stream = Some(stream);
                Ok(())
            }
            Err(_) => {
                count(&mut self.lost);
                Err(count(&mut self.faults))
            }
        }
    }

    fn receive(&mut self, out: &mut [u8]) -> Result<usize, Fault> {
        let seconds = if self.kept {
            KEPT_SECONDS
        } else {
            SILENT_SECONDS
        };
        if wait_for(&self.stream, seconds).is_err() {
            return Err(count(&mut self.faults));
        }
        match read(&mut self.stream, out) {
            Ok(n) => {
                self.kept = false;
                Ok(n)
            }
            Err(_) => Err(count(&mut self.faults)),
        }
    }

    fn send(&mut self, bytes: &[u8]) -> Result<(), Fault> {
        match write(&mut self.stream, bytes) {
            Ok(()) => {
                self.kept = true;
                Ok(())
            }
            Err(_) => Err(count(&mut self.faults)),
        }
    }

    fn close(&mut self) {
        self.stream = None;
    }
}

/// Listens at a port of the address 127.0.0.1.
fn bind<R: Net<Listener = TcpListener, Stream = TcpStream>>(
    rt: &R,
    number: u16,
) -> io::Result<Listening>
    ensures { IfOk result (λ listening. listening.number ≡ number) }
{
    let listener = TcpListener::bind(rt, (Ipv4Addr::LOCALHOST, number))?;
    Ok(Listening { listener, number })
}

/// The next connection, of which a peer has not let go before it was accepted.
fn next_stream(listening: &Option<Listening>) -> io::Result<TcpStream>
    ensures listens { OnOk result (IsSome listening.now) }
{
    let Some(listening) = listening else {
        return Err(io::Error::from(ErrorKind::NotConnected));
    };
    for _ in 0..u64::MAX {
        match listening.listener.accept() {
            Ok((stream, _)) => return prepared(stream),
            Err(error) if error.kind() == ErrorKind::ConnectionAborted => {}
            Err(error) => return Err(error),
        }
    }
    Err(io::Error::from(ErrorKind::ConnectionAborted))
}

/// Sends without delay, and lets nothing wait forever for a peer that takes no byte.
fn prepared(stream: TcpStream) -> io::Result<TcpStream> {
    stream.set_nodelay(true)?;
    stream.set_write_timeout(Some(Duration::from_secs(SILENT_SECONDS)))?;
    Ok(stream)
}

/// Sets how long a peer may be silent.
fn wait_for(stream: &Option<TcpStream>, seconds: u64) -> io::Result<()> {
    match stream {
        Some(stream) => stream.set_read_timeout(Some(Duration::from_secs(seconds))),
        None => Err(io::Error::from(ErrorKind::NotConnected)),
    }
}
