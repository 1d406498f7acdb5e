//! HTTP/1.1 as bytes: the request for a file, and what is heard of a peer's stream, whole and cut (RFC 9110, RFC 9112).
//!
//! Nothing here opens a connection. A `Wire` is fed what the peer sends, in pieces of any size, and answers as the
//! definition of `specs/` does for all bytes together. What takes memory is handed an allocator or keeps one.
//!
//! `request` writes the request for a file, from a byte on. A `Wire` is fed a peer's stream in pieces of any size
//! and tells what is heard of it: a body, a redirect, a status, too many bytes, or the place at which the peer
//! broke the protocol, which is told by the first byte that shows it. What is heard is defined once, on all bytes together: there is at most one reading of a
//! stream (`one_reading`), which stays when more bytes follow (`endings_stay`), each whole response of known
//! length, within the limit, is heard as its body (`responses_are_heard`), and a wire's state, body and reply are
//! that reading of the bytes fed, however they were cut (`follows`, `replies`, `wires_tell`). What `take` gave,
//! followed by the bytes of `reply`, is the body, which begins at the byte that was asked for, fits in the limit,
//! and with more bytes only grows (`bodies_fit`, `bodies_grow`). What a head's fields say, whoever sent it, is read by
//! functions of their own, each exactly its definition (`values`, `same_word`, `is_digits`, `number`, `has_close`,
//! `lines_behind_blank`), so that a server reads requests by the same words. Only tested: that the definition is what RFC 9112
//! and this profile say of 91 streams cut at every place. By the form of the code, and no clause: a good head that
//! comes whole in a piece is read twice, and any other one with each of its lines behind the empty ones at its
//! front, of which there are at most 130, and with each piece that stops within one, but for pieces that go on
//! within a name, a value or a reason behind the first 13 bytes of their line.
#![tactic(auto)]

pub use ending::{Response, State};
pub use fields::{has_close, is_digits, number, same_word, values};
pub use laws::{
    bodies_fit, bodies_grow, endings_stay, limits_rise, one_reading, responses_are_heard,
    wires_tell,
};
pub use meaning::{Framing, Meaning};
pub use phase::Phase;
pub use reading::lines_behind_blank;
pub use sending::request;
pub use wire::Wire;

mod bodies;
mod closing;
mod ending;
mod fields;
mod laws;
mod lines;
mod meaning;
mod phase;
mod reading;
mod runs;
mod sending;
mod wire;
