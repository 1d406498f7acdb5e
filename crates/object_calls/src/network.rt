//! The objects of the network: a link over TCP with its peer, and a port over TCP.

use crate::page::Page;
use crate::peer::Peer;
use crate::port;
use crate::words::{Refused, short};
use acq_base::Text;
use acq_net::{Link, Port, TcpLink, TcpPort};
use std::net::TcpListener;

/// A link over TCP.
type RealLink = TcpLink<HostRuntime>;

/// The objects of the network.
#[derive(Drop)]
pub struct Network {
    rt: HostRuntime,
    link: RealLink,
    peer: Peer,
    port: TcpPort<HostRuntime>,
    /// The last number at which nobody listened.
    free: u16,
}

impl Network {
    /// A link that isn't connected, and a peer and a port that don't listen.
    pub fn new(rt: HostRuntime) -> Network {
        Network {
            rt,
            link: TcpLink::new(rt),
            peer: Peer::new(rt),
            port: TcpPort::new(rt),
            free: 0,
        }
    }

    /// Puts what a call of one of them answers.
    pub fn answer(
        &mut self,
        page: &mut Page,
        object: &str,
        call: &str,
        words: &[Text],
    ) -> Result<(), Refused> {
        match (object, call, words) {
            ("link", "connect", [host, at]) => {
                let at = self.number(at)?;
                page.put_done(self.link.connect(host, at));
                Ok(())
            }
            ("port", "listen", [at]) => {
                let at = self.number(at)?;
                page.put_done(self.port.listen(at));
                Ok(())
            }
            ("link", _, _) => link_answer(page, &mut self.link, call, words),
            ("peer", _, _) => self.peer.answer(page, call, words),
            _ => port::real_answer(page, &mut self.port, call, words),
        }
    }

    /// The number of a port: that at which the peer listens, one at which nobody does, that one again, also as the one of
    /// the port, or the number that the word is.
    fn number(&mut self, word: &Text) -> Result<u16, Refused> {
        match word.as_bytes() {
            b"peer" => self.peer.port(),
            b"free" => {
                self.free = free_number(&self.rt)?;
                Ok(self.free)
            }
            b"again" | b"port" => Ok(self.free),
            _ => short(word),
        }
    }
}

/// A number at which nobody listens.
pub fn free_number(rt: &HostRuntime) -> Result<u16, Refused> {
    Ok(TcpListener::bind(rt, "127.0.0.1:0")?.local_addr()?.port())
}

/// Puts what a call of a link answers.
fn link_answer(
    page: &mut Page,
    link: &mut RealLink,
    call: &str,
    words: &[Text],
) -> Result<(), Refused> {
    match (call, words) {
        ("send", [text]) => page.put_done(link.send(text.as_bytes())),
        ("receive", []) => receive(page, link),
        ("close", []) => {
            link.close();
            page.put("closed");
        }
        ("faults", []) => page.put_number(link.faults()),
        _ => return Err(Refused::NoCall),
    }
    Ok(())
}

/// Receives into a buffer of four stars.
fn receive(page: &mut Page, link: &mut RealLink) {
    let mut out = *b"****";
    let received = link.receive(&mut out);
    page.put_piece(received, &out);
}
