//! The frame of a text that is signed in clear (RFC 9580, section 7): taken off, the signature unjudged.
//!
//! `unframe` is its definition (`value`): None of lines that begin no frame, else the text of a frame around its
//! lines (`told`), and of every frame (`framed`). A line is refused where some frame begins with the lines before
//! it and none with it too (`refused`). Framing lines and taking the frame off gives them back (`frames_come_off`,
//! a law).
#![tactic(auto)]

pub use error::FrameError;
pub use frame::{frames_come_off, unframe};

mod error;
mod frame;
mod header;
mod numbered;
