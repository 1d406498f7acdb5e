//! One method for both schemes: `file` URIs are fetched by one method, `http` URIs by another.
//!
//! Its words are those of the method that a job goes to (`file`, `http`), the other one isn't touched (`no_peer`,
//! `no_file`), and where both tell their mirrors it tells the answers of each to its own scheme (`word`).
#![tactic(auto)]

pub use method::BothMethod;

mod method;
