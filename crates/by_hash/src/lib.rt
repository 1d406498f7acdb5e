//! Where a list may be fetched: under its digest, and under its own name (Debian repository format,
//! "Acquire-By-Hash").
//!
//! `candidates` are the URI under its digest, where the source or the Release asks for that, and the list's own
//! (`value`), each sound (`sound`). `beside` is the URI of another file in a folder (`replaced`).
#![tactic(auto)]

pub use folder::beside;
pub use uris::{by_hash_uri, candidates};

mod folder;
mod uris;
