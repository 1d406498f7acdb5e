//! Updates from a server of a tree, over HTTP.
//!
//! `update_served` is `update_program`'s update over HTTP methods whose links are to the product's own server in memory. Its
//! clause `served` names the mirror: the map from the URIs of the files that the server sends to their bytes. Where a run
//! answers a log and no fetch was given up, as none is where no method failed, the lists end as what is next over that map;
//! and a stop leaves each source its former set or that map's. Where there is no log, `ended` and the status say why. That
//! requests and responses between them are written and read byte by byte is what `owes` and `came` of the link say. Nothing
//! is said of TCP.
#![tactic(auto)]

pub use update::update_served;

mod update;
