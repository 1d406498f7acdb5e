//! The peer at a link's other end, by the system's own calls.

use crate::page::Page;
use crate::words::{Refused, short};
use acq_base::Text;
use std::alloc::Global;
use std::io::{Read, Write};
use std::net::{TcpListener, TcpStream};

/// A peer on this machine.
#[derive(Drop)]
pub struct Peer {
    rt: HostRuntime,
    listener: Option<TcpListener>,
    stream: Option<TcpStream>,
}

impl Peer {
    /// A peer that doesn't listen.
    pub fn new(rt: HostRuntime) -> Peer {
        Peer {
            rt,
            listener: None,
            stream: None,
        }
    }

    /// The port at which the peer listens.
    pub fn port(&self) -> Result<u16, Refused> {
        match &self.listener {
            Some(listener) => Ok(listener.local_addr()?.port()),
            None => Err(Refused::NoCall),
        }
    }

    /// What the peer does.
    pub fn answer(&mut self, page: &mut Page, call: &str, words: &[Text]) -> Result<(), Refused> {
        match (call, words) {
            ("listen", []) => self.listen()?,
            ("accept", []) => self.accept()?,
            ("leave", []) => self.stream = None,
            _ => return talk(self.rt.alloc(), page, &mut self.stream, call, words),
        }
        page.put("done");
        Ok(())
    }

    fn listen(&mut self) -> Result<(), Refused> {
        self.listener = Some(TcpListener::bind(&self.rt, "127.0.0.1:0")?);
        Ok(())
    }

    fn accept(&mut self) -> Result<(), Refused> {
        let Some(listener) = &self.listener else {
            return Err(Refused::NoCall);
        };
        let (stream, _) = listener.accept()?;
        self.stream = Some(stream);
        Ok(())
    }
}

/// What the peer hears and says on its connection, if it has one.
fn talk(
    alloc: Global,
    page: &mut Page,
    stream: &mut Option<TcpStream>,
    call: &str,
    words: &[Text],
) -> Result<(), Refused> {
    match (stream, call, words) {
        (Some(stream), "hear", [most]) => hear(alloc, page, stream, short(most)?),
        (Some(stream), "say", [text]) => {
            stream.write_all(text.as_bytes())?;
            page.put("done");
            Ok(())
        }
        _ => Err(Refused::NoCall),
    }
}

/// Puts so many bytes that the peer hears.
fn hear(alloc: Global, page: &mut Page, stream: &mut TcpStream, most: u16) -> Result<(), Refused> {
    let mut heard = vec![in alloc; b'*'; usize::from(most)]?;
    stream.read_exact(heard.as_mut_slice())?;
    page.put_bytes(heard.as_slice());
    Ok(())
}
