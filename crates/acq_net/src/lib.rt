//! Connections over which HTTP is spoken: those that are made to peers, and those that peers make. Of each kind one is in
//! memory and follows a script, and one goes over TCP.
//!
//! A `Link` has one connection at a time to an HTTP peer. Where it tells what is said on it, its clauses speak of
//! the bytes that were sent and received (`sent`, `received`), and a failed call leaves a part of them (`part`);
//! where it stands for a mirror, what is due behind a request is that mirror's answer (`owes`, `came`), but no link
//! here stands for one; it tells too what was said on the connection before (`former`); a fault comes only where
//! its count rose (`frame`), and how often it connected and heard a peer's end is counted. `ScriptLink` is one in
//! memory, whose peers say what a script has; `TcpLink` one over TCP, which tells nothing of content: an address
//! that doesn't answer within 30 seconds is given up, and a peer that is silent for 30 seconds is a fault, which
//! no proof or test shows. Both tell whether the connection is open (`opened`, `closed`, `over`), and whether a byte
//! came since the last `send` (`answered`, `unanswered`). Only tested: that a `send` of a `TcpLink` on a kept
//! connection is a fault where something waits there, and that a reset before the first byte of a response is the
//! peer's end.
//!
//! A `Port` has the connections that peers make to this program, one at a time. Where it tells, it tells of each that
//! it accepted the bytes that were sent and received and whether the peer's end was heard (`talks`): `accept` adds one
//! on which nothing was said (`accepted`), and what is sent and received goes to the latest one (`sent`, `received`,
//! `part`). Each tells the number of the port at which it listens, if it does: `listen` alone changes it (`at`,
//! `nowhere`), and `accept` is Ok only where it listens (`listens`). A fault comes only where its count of faults rose,
//! and a second count, `lost`, rises with a fault of `listen` or `accept` alone (`frame`). `MemPort` is one in memory,
//! whose peers say what a script has; of it is proved too which calls fail: those that are listed (`listed`), `accept`
//! where it doesn't listen (`nowhere`), `receive` and `send` where no connection was accepted (`unaccepted`), and of the
//! others only those that want memory (`others`). `TcpPort` is one over TCP, at 127.0.0.1, which tells nothing of
//! content: that bytes pass between it and a `TcpLink` is only tested, and how long it waits for a silent peer is
//! neither proved nor tested.
#![tactic(auto)]

pub use link::Link;
pub use mem_port::MemPort;
pub use port::Port;
pub use script_link::ScriptLink;
pub use tcp_link::TcpLink;
pub use tcp_port::TcpPort;

mod calls;
mod link;
mod mem_port;
mod port;
mod script;
mod script_link;
mod tcp;
mod tcp_link;
mod tcp_port;
