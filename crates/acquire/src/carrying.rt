//! The one call that the program makes.
ghost use Rattle.std.specs.Prelude.{◌≡◌, ◌≤◌, vec_len};
ghost use Rattle.std.specs.Process.{exit_status};
ghost use Rattle.acq_real.specs.RealDisk as disk;
ghost use Rattle.acq_real.specs.RealEtc as etc;
ghost use Rattle.acquire.specs.Carried.{CarriesOut};

use crate::exit_code;
use crate::outside::{open, open_aside};
use crate::place::{partial_to_make, place_for, remove_made};
use acq_net::{Port, TcpPort};
use acq_outside::{Clock, Disk, Etc, Files, Inlet, Method, Sink, Tree};
use acq_real::{RealClock, RealDisk, RealEtc, RealFiles, RealSink, RealTree};
use start_values::{Environment, Refused, begin_program, write_refusal};
use std::fs::File;
use std::net::{Net, TcpListener, TcpStream};
use std::process::ExitCode;
use std::rt;
use std::sync::Wait;
use std::thread::Threads;
use update_program::{Status, program_call};

/// Reads the words and the folders that the environment names, and carries the words out over these folders, an input, and these
/// methods, the first the coordinator's and each other one a worker's.
/// The folder `partial` that a download made is removed where it is empty in the end.
/// It answers the status of that call, or of the refusal where words or a variable can't be read.
pub fn carry_out<V, R, M, I>(
    rt: R,
    environment: &V,
    methods: &mut Vec<M>,
    input: I,
    out: &mut RealSink<R>,
) -> ExitCode
where
    V: Environment,
    R: rt::Files<File = File>
        + rt::Clock
        + Net<Listener = TcpListener, Stream = TcpStream>
        + Print
        + AllocGlobal
        + Threads
        + Wait
        + Copy
        + Send
        + Sync
        + 'static,
    M: Method + Send + 'static,
    I: Inlet,
    requires methods { (1 ≤ vec_len methods.old) × (vec_len methods.old ≤ 9) }
    ensures { CarriesOut ⟦<RealEtc<R> as Etc>⟧ ⟦<RealDisk<R> as Disk>⟧ M.Method ⟦<RealClock<R> as Clock>⟧ ⟦<RealSink<R> as Sink>⟧
        I.Inlet ⟦<RealFiles<R> as Files>⟧ ⟦<TcpPort<R> as Port>⟧ ⟦<RealTree<R> as Tree>⟧
        etc.folder_of disk.folder_of (V.known environment.now) methods.old methods.new input out.old out.new (exit_status result) }
{
    let start = match begin_program(rt.alloc(), environment, out) {
        Ok(start) => start,
        Err(status) => return exit_code(Status(status)),
    };
    let Ok(mut outside) = open(rt, &start) else {
        return exit_code(Status(write_refusal(Refused::NoMemory, out)));
    };
    let place = match place_for(rt.alloc(), environment, start.words.as_slice()) {
        Ok(place) => place,
        Err(refused) => return exit_code(Status(write_refusal(refused, out))),
    };
    let Ok(mut aside) = open_aside(rt, input, place.as_str()) else {
        return exit_code(Status(write_refusal(Refused::NoMemory, out)));
    };
    let partial = partial_to_make(rt.alloc(), &rt, place.as_str(), start.words.as_slice());
    let ran = program_call(
        &rt,
        start.words.as_slice(),
        &mut outside.etc,
        &mut outside.lists,
        methods,
        &mut outside.clock,
        out,
        &mut aside,
    );
    remove_made(&rt, partial);
    exit_code(ran.status)
}
