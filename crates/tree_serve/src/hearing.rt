//! Hears the next request of a connection.
ghost use Rattle.std.specs.Prelude.{◌≡◌, ◌<◌, ◌≤◌, true, false, length, take, IfOk, OnErr, OnOk, option_map};
ghost use Rattle.acq_net.specs.Talk.{receives};
ghost use Rattle.acq_net.specs.Talks.{ReceivesPartOfLatest, on_first};
ghost use Rattle.tree_serve.specs.Frame.{Converses};
ghost use Rattle.tree_serve.specs.Hearing.{Hears, HearsNext};
ghost use Rattle.tree_serve.specs.Talks.{others_of};

use crate::ServeError;
use acq_base::Bytes;
use acq_net::Port;
use http_requests::{Reading, Request, read_request};
use std::alloc::Global;

/// How many bytes are received at once, at most.
const ROOM: usize = 8_192;

/// How often it may be looked at what is unread: what is no request yet has at most 65,536 bytes, and each time brought one.
const LOOKS: usize = 65_538;

/// What comes next on a connection.
#[derive(Debug, PartialEq, Drop)]
pub enum Next {
    /// The peer ended before a whole request came.
    End,
    /// No request can come.
    Bad,
    /// A request, with a head of so many bytes.
    Request(usize, Request),
}

/// Hears the next request behind the unread bytes, to which it appends what it receives.
pub fn hear_next<P: Port>(
    alloc: Global,
    port: &mut P,
    unread: &mut Bytes,
) -> Result<Next, ServeError>
    ensures frame { Converses P.Port port.old port.new result }
    ensures others { others_of (P.talks port.new) ≡ others_of (P.talks port.old) }
    ensures heard { IfOk result (HearsNext unread.old unread.new (P.talks port.old) (P.talks port.new)) }
    ensures part { OnErr result (ReceivesPartOfLatest (P.talks port.old) (P.talks port.new)) }
{
    for _ in 0..LOOKS {
        match read_request(alloc, unread.as_slice())? {
            Reading::More => {
                if !hear(port, unread)? {
                    return Ok(Next::End);
                }
            }
            Reading::Bad => return Ok(Next::Bad),
            Reading::Whole(len, request) => return Ok(Next::Request(len, request)),
        }
    }
    unreachable!()
}

/// Receives bytes behind the unread ones, and answers whether some came: none are the peer's end.
fn hear<P: Port>(port: &mut P, unread: &mut Bytes) -> Result<bool, ServeError>
    ensures frame { Converses P.Port port.old port.new result }
    ensures others { others_of (P.talks port.new) ≡ others_of (P.talks port.old) }
    ensures same { IfOk result (λ goes_on. goes_on ≡ false → unread.new ≡ unread.old) }
    ensures longer { IfOk result (λ goes_on. goes_on ≡ true → length unread.old < length unread.new) }
    ensures heard { IfOk result (λ goes_on. Hears goes_on unread.old unread.new (P.talks port.old) (P.talks port.new)) }
    ensures part { OnErr result (ReceivesPartOfLatest (P.talks port.old) (P.talks port.new)) }
{
    let mut room = [0u8; ROOM];
    let n = receive(port, &mut room)?;
    if n == 0 {
        return Ok(false);
    }
    unread.append(&room[..n])?;
    Ok(true)
}

fn receive<P: Port>(port: &mut P, room: &mut [u8]) -> Result<usize, ServeError>
    requires { 0 < length room.old }
    ensures frame { Converses P.Port port.old port.new result }
    ensures others { others_of (P.talks port.new) ≡ others_of (P.talks port.old) }
    ensures within { IfOk result (λ n. n ≤ length room.old) }
    ensures room { length room.new ≡ length room.old }
    ensures received { IfOk result (λ n. P.talks port.new ≡ option_map (on_first (receives (take n room.new))) (P.talks port.old)) }
    ensures part { OnErr result (ReceivesPartOfLatest (P.talks port.old) (P.talks port.new)) }
{
    match port.receive(room) {
        Ok(n) => Ok(n),
        Err(_) => Err(ServeError::PortFault),
    }
}
