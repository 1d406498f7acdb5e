//! The top call: what the words of a command line ask for.
//!
//! `program_call` sees whether they ask for something beside updates: one package's file (`downloads`), apt's method
//! interface (`speaks`) or a server of files (`serves`), each of which touches no object of another (`download_alone`,
//! `method_alone`, `serve_alone`). All other words are those of `update_call`, each of whose clauses it has for them.
//!
//! `update_call` reads the words, then the configuration, takes the hold on the lists folder, reads the moment, runs the
//! update and writes the report; the first refusal or fault ends it, by one line in place of the report. It touches nothing
//! but the objects that it is handed.
//!
//! Its [own page](../README.md) has the clauses. The headline follows of what a run is by the laws of
//! `run_promises`.
#![tactic(auto)]

pub use aside::Aside;
pub use program::program_call;
pub use ran::{Ran, Status};
pub use top::update_call;

mod aside;
mod download;
mod fetch;
mod generate;
mod holding;
mod method;
mod options;
mod program;
mod ran;
mod run;
mod say;
mod serve;
mod top;
