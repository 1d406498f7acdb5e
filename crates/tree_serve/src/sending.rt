//! Sends a response that is planned.
ghost use Rattle.std.specs.Prelude.{◌≡◌, ◌+◌, ◌^◌, ◌<◌, ◌≤◌, length, take, IfOk, IfSome, OnErr, OnOk, option_map};
ghost use Rattle.acq_net.specs.Talk.{sends};
ghost use Rattle.acq_net.specs.Talks.{SendsPartOfLatest, on_first};
ghost use Rattle.acq_outside.specs.Frame.{LooksBy};
ghost use Rattle.tree_serve.specs.Frame.{Converses, Serves};
ghost use Rattle.tree_serve.specs.Planned.{InRange, IsWithin, part_at, to_send};
ghost use Rattle.tree_serve.specs.Sending.{IsPartRead};
ghost use Rattle.tree_serve.specs.Talks.{others_of};
ghost use Rattle.tree_serve.specs.Texts.{content_at};

use crate::{Planned, ServeError};
use acq_base::Text;
use acq_net::Port;
use acq_outside::{Fault, Tree};
use std::alloc::Global;

/// How many bytes of a file are read at once, at most.
const ROOM: u64 = 65_536;

/// Sends bytes on the latest connection.
pub fn send<P: Port>(port: &mut P, bytes: &[u8]) -> Result<(), ServeError>
    ensures frame { Converses P.Port port.old port.new result }
    ensures others { others_of (P.talks port.new) ≡ others_of (P.talks port.old) }
    ensures sent { OnOk result (P.talks port.new ≡ option_map (on_first (sends bytes.now)) (P.talks port.old)) }
    ensures part { OnErr result (SendsPartOfLatest bytes.now (P.talks port.old) (P.talks port.new)) }
{
    match port.send(bytes) {
        Ok(()) => Ok(()),
        Err(_) => Err(ServeError::PortFault),
    }
}

/// Sends all of a response.
pub fn send_planned<P: Port, T: Tree>(
    alloc: Global,
    port: &mut P,
    tree: &mut T,
    planned: &Planned,
) -> Result<(), ServeError>
    requires range { InRange planned.now }
    requires within { IfSome (T.files tree.old) (λ files. IsWithin files planned.now) }
    ensures frame { Serves P.Port T.Tree port.old port.new tree.old tree.new result }
    ensures others { others_of (P.talks port.new) ≡ others_of (P.talks port.old) }
    ensures sent { IfSome (T.files tree.old) (λ files.
        OnOk result (P.talks port.new ≡ option_map (on_first (sends (to_send files planned.now))) (P.talks port.old))) }
    ensures part { IfSome (T.files tree.old) (λ files.
        OnErr result (SendsPartOfLatest (to_send files planned.now) (P.talks port.old) (P.talks port.new))) }
{
    send(port, planned.head.as_slice())?;
    send_body(alloc, port, tree, planned)
}

/// Sends the bytes of a file that a response has, piece by piece.
fn send_body<P: Port, T: Tree>(
    alloc: Global,
    port: &mut P,
    tree: &mut T,
    planned: &Planned,
) -> Result<(), ServeError>
    requires range { InRange planned.now }
    requires within { IfSome (T.files tree.old) (λ files. IsWithin files planned.now) }
    ensures frame { Serves P.Port T.Tree port.old port.new tree.old tree.new result }
    ensures others { others_of (P.talks port.new) ≡ others_of (P.talks port.old) }
    ensures sent { IfSome (T.files tree.old) (λ files.
        OnOk result (P.talks port.new ≡ option_map
        (on_first (sends (part_at files planned.now.path planned.now.at planned.now.left))) (P.talks port.old))) }
    ensures part { IfSome (T.files tree.old) (λ files.
        OnErr result (SendsPartOfLatest (part_at files planned.now.path planned.now.at planned.now.left) (P.talks port.old) (P.talks port.new))) }
{
    if planned.left == 0 {
        return Ok(());
    }
    let mut room = vec![in alloc; 0u8; planned.left.min(ROOM) as usize]?;
    let end = planned.at + planned.left;
    let mut at = planned.at;
    while at < end {
        at += send_piece(port, tree, &planned.path, at, end - at, room.as_mut_slice())?;
    }
    Ok(())
}

/// Sends the next bytes of a file, at most `left` of them, and answers how many these are.
fn send_piece<P: Port, T: Tree>(
    port: &mut P,
    tree: &mut T,
    path: &Text,
    at: u64,
    left: u64,
    room: &mut [u8],
) -> Result<u64, ServeError>
    requires some { 0 < left }
    requires range { at + left < 2 ^ 64 }
    requires room { 0 < length room.old }
    requires within { IfSome (T.files tree.old) (λ files. at + left ≤ length (content_at files path.now)) }
    ensures frame { Serves P.Port T.Tree port.old port.new tree.old tree.new result }
    ensures others { others_of (P.talks port.new) ≡ others_of (P.talks port.old) }
    ensures room { length room.new ≡ length room.old }
    ensures some { IfOk result (λ n. 0 < n) }
    ensures few { IfOk result (λ n. n ≤ left) }
    ensures sent { IfSome (T.files tree.old) (λ files.
        IfOk result (λ n. P.talks port.new ≡ option_map (on_first (sends (part_at files path.now at n))) (P.talks port.old))) }
    ensures part { IfSome (T.files tree.old) (λ files.
        OnErr result (SendsPartOfLatest (part_at files path.now at left) (P.talks port.old) (P.talks port.new))) }
{
    let n = match read_some(tree, path, at, left, room) {
        Ok(n) => n,
        Err(_) => return Err(ServeError::TreeFault),
    };
    if n == 0 {
        return Err(ServeError::Shrunk {
            size: at + left,
            got: at,
        });
    }
    let (piece, _) = room.split_at(n);
    send(port, piece)?;
    Ok(n as u64)
}

/// Reads the next bytes of a file into the front of the room, at most `most`, and answers how many these are.
fn read_some<T: Tree>(
    tree: &mut T,
    path: &Text,
    at: u64,
    most: u64,
    room: &mut [u8],
) -> Result<usize, Fault>
    requires some { 0 < most }
    requires room { 0 < length room.old }
    ensures frame { LooksBy T.faults T.files tree.old tree.new result }
    ensures room { length room.new ≡ length room.old }
    ensures within { IfOk result (λ n. n ≤ length room.old) }
    ensures few { IfOk result (λ n. n ≤ most) }
    ensures told { IfSome (T.files tree.old) (λ files. IfOk result (IsPartRead (content_at files path.now) at room.new)) }
{
    let space = room.len() as u64;
    let n = if most < space {
        most as usize
    } else {
        room.len()
    };
    let (front, _) = room.split_at_mut(n);
    tree.read_at(path, at, front)
}
