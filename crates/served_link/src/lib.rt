//! A link to a server of a tree of files, in memory: what a client hears of the server is the mirror that the tree is.
//!
//! A written request for a sound URI of the server is answered by a response that is heard as the mirror's answer
//! (`answers_are_heard`, a law). `ServedLink` is a link whose peer is that server, at a host's port over the files below a
//! root. Where the tree tells its files, it tells the mirror that these are (`world`), and each clause of a link is proved
//! of it (`impl Link`): a request for a sound URI that is sent while nothing is due makes a response due that is heard as
//! the mirror's answer, at the server's own place, and as that of no file at any other (`owes`); what is received are its
//! bytes in order, and the peer's end comes only behind them (`came`). Of requests from others than this program's method
//! too: what is sent gets the server's next response where it is one whole request and the last response was received and
//! left the connection open (`responds`), and else none (`silent`); responses are numbered anew on each connection
//! (`number`). It fails only where the tree does, or for want of memory, and counts that (`frame`). It doesn't tell what was
//! said. By the form of the code, and no clause: at most as many bytes of a file are in memory as are received at once.
#![tactic(auto)]

pub use laws::answers_are_heard;
pub use link::ServedLink;

mod laws;
mod link;
mod no_files;
mod pending;
mod responding;
mod sending;
