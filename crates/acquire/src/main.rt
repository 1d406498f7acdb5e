//! The program `acquire`: fetches the package lists that a configuration names and keeps each source's set of them
//! consistent.
//!
//! It reads its words and the variables of its environment, makes the real objects, and leaves the rest to
//! `program_call`, whose status it ends with.
//!
//! `main` takes the descriptors of standard input, output and error where it was started without them, makes as many methods
//! as there are to be workers and one, and then makes one call of `carry_out` over the system's environment and standard input. Proved of that call, over any environment: either what can't be read
//! is told, or it ends as one call of `program_call` may, with the words behind the program's own name, over the folders that the
//! environment names and those methods, and the exit code is its status (`CarriesOut`).
#![tactic(auto)]

ghost use Rattle.std.specs.Prelude.{◌≡◌};
ghost use Rattle.std.specs.Process.{exit_status};

use acq_real::{RealInlet, RealSink};
use carrying::carry_out;
use outside::methods_of;
use standard::hold_standard;
use start_values::{RealEnvironment, write_refusal};
use std::process::ExitCode;
use update_program::Status;

mod carrying;
mod outside;
mod place;
mod standard;

fn main(rt: HostRuntime) -> ExitCode {
    let _standard = hold_standard(&rt);
    let mut out = RealSink::new(rt);
    let environment = RealEnvironment::new(rt);
    let mut methods = match methods_of(rt, &environment) {
        Ok(methods) => methods,
        Err(refused) => return exit_code(Status(write_refusal(refused, &mut out))),
    };
    let input = RealInlet::new(rt.stdin());
    carry_out(rt, &environment, &mut methods, input, &mut out)
}

/// The code with which the program ends.
fn exit_code(status: Status) -> ExitCode
    ensures { exit_status result ≡ status.0 }
{
    ExitCode::from(status.0)
}
