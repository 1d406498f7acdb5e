//! A method for `http` URIs over any link: what it fetches is what is heard of the link's peer (RFC 9110, RFC 9112).
//!
//! `HttpMethod` keeps one connection behind a whole file that leaves it open, and no more of a file than one piece.
//!
//! Where the link tells what is said, the first word of a fetch is what `http_wire` hears of the bytes received
//! behind the request, on a new connection or the kept one (`says`); a connection is kept only behind a whole file
//! that leaves it open (`behind`), and made anew only where its peer ended before a byte of the response came
//! (`made`, `anew`), and then always: a word of the peer comes behind a byte, or on a connection that was made for
//! it (`heard`). Behind a fetch over HTTP no connection is open but the one that is kept, or that a response is
//! still read from (`opened`). A fault comes only where the link's count rose (`frame`). Where the link stands for
//! a mirror without `file` URIs, each word is that mirror's (`word`).
#![tactic(auto)]

pub use method::HttpMethod;

mod asking;
mod hearing;
mod method;
mod reading;
mod saying;
