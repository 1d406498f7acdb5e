//! An update over links to a server in memory.
ghost use Rattle.std.specs.Prelude.{◌≡◌, ◌≤◌, vec_len};
ghost use Rattle.acq_outside.specs.Count.{Rose};
ghost use Rattle.served_update.specs.Served.{UpdatesOfServer};
ghost use Rattle.update_program.specs.Asked.{IfUpdate, asked};
ghost use Rattle.update_program.specs.Ending.{EndsUpdate};
ghost use Rattle.update_program.specs.Objects.{span};
ghost use Rattle.update_program.specs.Said.{IsStatus};

use acq_outside::{Clock, Disk, Etc, Method, Sink, Tree};
use http_method::HttpMethod;
use served_link::ServedLink;
use std::sync::Wait;
use std::thread::Threads;
use update_program::{Ran, update_call};

/// A method over a link to a server in memory.
pub type ServedMethod<T> = HttpMethod<ServedLink<T>>;

/// Carries out what the words of a command line ask for, as `update_call` does, over links to a server in memory.
///
/// There are 1 to 9 methods.
pub fn update_served<
    R: AllocGlobal + Threads + Wait + Copy + Send + Sync + 'static,
    E: Etc,
    D: Disk,
    T: Tree + Send + 'static,
    C: Clock,
    S: Sink,
>(
    rt: &R,
    words: &[String],
    etc: &mut E,
    disk: &mut D,
    methods: &mut Vec<ServedMethod<T>>,
    clock: &mut C,
    out: &mut S,
) -> Ran
    requires { (1 ≤ vec_len methods.old) × (vec_len methods.old ≤ 9) }

    // What a call of an update says of its status and of its end.
    ensures disk_fault { result.status.0 ≡ 102 → Rose (D.faults disk.old) (D.faults disk.new) }
    ensures sink_fault { result.status.0 ≡ 105 → Rose (S.faults out.old) (S.faults out.new) }
    ensures held_fault { result.status.0 ≡ 104 → Rose (D.held disk.old) (D.held disk.new) }
    ensures etc_fault { result.status.0 ≡ 106 → Rose (E.faults etc.old) (E.faults etc.new) }
    ensures status { IfUpdate (asked words.now) (λ options. IsStatus result.log result.status.0) }
    ensures ended { IfUpdate (asked words.now) (EndsUpdate (E.files etc.old) (C.last clock.new)
        (span D.Disk ⟦<ServedMethod<T> as Method>⟧ S.Sink disk.old disk.new methods.old methods.new out.old out.new) result) }

    // Where all methods ask one server, whose files are told, the mirror is the map of these files: where a log is answered and
    // no fetch was given up, the lists end as what is next over it.
    ensures served { UpdatesOfServer T.Tree words.now methods.old (E.files etc.old) (C.last clock.new)
        (span D.Disk ⟦<ServedMethod<T> as Method>⟧ S.Sink disk.old disk.new methods.old methods.new out.old out.new) result }
{
    update_call(rt, words, etc, disk, methods, clock, out)
}
