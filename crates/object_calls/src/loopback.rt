//! A server and a peer that asks it over loopback, each in a thread of its own.

ghost use Rattle.std.specs.Prelude.{◌≡◌, IfOk};
ghost use Rattle.acq_base.specs.Uri.{IsSound};

use crate::network::free_number;
use crate::page::Page;
use crate::tree::below;
use crate::words::Refused;
use acq_base::{Job, NotServed, Reply, Text};
use acq_net::{Link, TcpLink, TcpPort};
use acq_outside::Method;
use acq_real::RealTree;
use http_method::HttpMethod;
use std::alloc::Global;
use std::thread::{self, Threads};
use std::time::Duration;
use tree_serve::{Stop, serve};
use uri_names::read_uri;

/// How often a peer tries to connect, with a millisecond between two tries.
const TRIES: u32 = 10_000;

/// Serves two connections below a folder, and meanwhile asks there for a path, twice over one of them. Puts what came, and
/// how the server ended.
pub fn answer<T: Threads>(
    threads: &T,
    rt: HostRuntime,
    page: &mut Page,
    own: &str,
    words: &str,
) -> Result<(), Refused> {
    let alloc = rt.alloc();
    let (folder, path) = words.split_once(' ').ok_or(Refused::NoCall)?;
    let root = below(alloc, own, &Text::from_bytes(alloc, folder.as_bytes())?)?;
    let path = Text::from_bytes(alloc, path.as_bytes())?;
    let port = free_number(&rt)?;
    let (served, asked) = thread::join(
        threads,
        || serve_two(rt, &root, port),
        || ask_twice(rt, port, &path),
    );
    let (first, second) = asked?;
    put_reply(page, &first);
    page.put(" and ");
    put_reply(page, &second);
    page.put(match served {
        Ok(()) => ", served",
        Err(_) => ", stopped",
    });
    Ok(())
}

/// Serves two connections below a folder.
fn serve_two(rt: HostRuntime, root: &Text, port: u16) -> Result<(), Stop> {
    let mut listening = TcpPort::new(rt);
    let mut tree = RealTree::new(rt);
    serve(rt.alloc(), &mut listening, &mut tree, root, port, 2)
}

/// Asks for a path twice. The connection by which it is seen that somebody listens is the first of two.
fn ask_twice(rt: HostRuntime, port: u16, path: &Text) -> Result<(Reply, Reply), Refused> {
    wait_for(rt, port)?;
    let job = job_at(rt.alloc(), port, path)?;
    let mut method = HttpMethod::new(TcpLink::new(rt));
    let first = method.fetch(rt.alloc(), &job);
    let second = method.fetch(rt.alloc(), &job);
    Ok((first, second))
}

/// Waits until somebody listens.
fn wait_for(rt: HostRuntime, port: u16) -> Result<(), Refused> {
    let host = Text::from_bytes(rt.alloc(), b"127.0.0.1")?;
    let mut link = TcpLink::new(rt);
    for _ in 0..TRIES {
        if link.connect(&host, port).is_ok() {
            break;
        }
        thread::sleep(&rt, Duration::from_millis(1));
    }
    Ok(())
}

/// A job that asks a server on this machine for the whole of a file.
fn job_at(alloc: Global, port: u16, path: &Text) -> Result<Job, Refused>
    ensures { IfOk result (λ job. IsSound job.uri × (job.from ≡ 0)) }
{
    let place = format!(in alloc; "http://127.0.0.1:{port}")?;
    let mut uri = Text::from_bytes(alloc, place.as_bytes())?;
    uri.append(path.as_bytes())?;
    match read_uri(alloc, uri.as_bytes()) {
        Ok(uri) => Ok(Job {
            no: 0,
            uri,
            max: u64::MAX,
            from: 0,
        }),
        Err(_) => Err(Refused::NoCall),
    }
}

fn put_reply(page: &mut Page, reply: &Reply) {
    match reply {
        Reply::Served(bytes) => page.put_bytes(bytes.as_slice()),
        Reply::Not(NotServed::Absent(status)) => {
            page.put("status ");
            page.put_number(u64::from(*status));
        }
        Reply::Not(_) => page.put("no file"),
        Reply::NoMemory => page.fall_short(),
    }
}
