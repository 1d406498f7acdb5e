//! The real objects of a run: folders and clock, made of what the program goes by, and the method.
ghost use Rattle.std.specs.Prelude.{◌≡◌, ◌≤◌, suc, IfOk, IfSome, string_bytes, vec_len};
ghost use Rattle.acq_real.specs.RealDisk as disk;
ghost use Rattle.acq_real.specs.RealEtc as etc;
ghost use Rattle.start_values.specs.Start.{known_lanes};

use acq_base::NoMemory;
use acq_net::{TcpLink, TcpPort};
use acq_outside::Inlet;
use acq_real::{RealClock, RealDisk, RealEtc, RealFiles, RealTree};
use both_method::BothMethod;
use file_method::FileMethod;
use http_method::HttpMethod;
use start_values::{Environment, Refused, Start, read_lanes};
use std::alloc::Global;
use std::fs::File;
use std::net::{Net, TcpListener, TcpStream};
use std::rt::{Clock, Files};
use update_program::Aside;

/// The method of the program: files of the system for `file` URIs, peers over TCP for `http` URIs.
pub type RealMethod<R> = BothMethod<FileMethod<RealTree<R>>, HttpMethod<TcpLink<R>>>;

/// What the commands beside updates work on, over this input.
pub type RealAside<R, I> = Aside<I, RealFiles<R>, TcpPort<R>, RealTree<R>, RealDisk<R>>;

/// The folders and the clock of a run.
#[derive(Drop)]
pub struct Outside<R>
where
    R: Files<File = File> + Clock + AllocGlobal + Copy,
{
    pub etc: RealEtc<R>,
    pub lists: RealDisk<R>,
    pub clock: RealClock<R>,
}

/// The configuration folder and the lists folder that a program goes by, and the system's clock. It touches none of them.
pub fn open<R>(rt: R, start: &Start) -> Result<Outside<R>, NoMemory>
where
    R: Files<File = File> + Clock + AllocGlobal + Copy,
    ensures etc { IfOk result (λ outside. etc.folder_of outside.etc ≡ string_bytes start.now.etc) }
    ensures lists { IfOk result (λ outside. disk.folder_of outside.lists ≡ string_bytes start.now.lists) }
{
    let alloc = rt.alloc();
    Ok(Outside {
        etc: open_etc(alloc, rt, start)?,
        lists: open_lists(alloc, rt, start)?,
        clock: RealClock::new(rt),
    })
}

/// What stands beside: an input, files and a port of the system, and the folder of this path. It touches none of them.
pub fn open_aside<R, I>(rt: R, input: I, place: &str) -> Result<RealAside<R, I>, NoMemory>
where
    R: Files<File = File> + Net<Listener = TcpListener, Stream = TcpStream> + AllocGlobal + Copy,
    I: Inlet,
    ensures input { IfOk result (λ aside. aside.input ≡ input) }
    ensures place { IfOk result (λ aside. disk.folder_of aside.place ≡ place.now) }
{
    let alloc = rt.alloc();
    match RealDisk::new(alloc, rt, place) {
        Ok(folder) => Ok(Aside {
            input,
            files: RealFiles::new(rt),
            port: TcpPort::new(rt),
            tree: RealTree::new(rt),
            place: folder,
        }),
        Err(_) => Err(NoMemory),
    }
}

fn open_etc<R>(alloc: Global, rt: R, start: &Start) -> Result<RealEtc<R>, NoMemory>
where
    R: Files<File = File> + AllocGlobal + Copy,
    ensures { IfOk result (λ folder. etc.folder_of folder ≡ string_bytes start.now.etc) }
{
    match RealEtc::new(alloc, rt, start.etc.as_str()) {
        Ok(folder) => Ok(folder),
        Err(_) => Err(NoMemory),
    }
}

fn open_lists<R>(alloc: Global, rt: R, start: &Start) -> Result<RealDisk<R>, NoMemory>
where
    R: Files<File = File> + AllocGlobal + Copy,
    ensures { IfOk result (λ folder. disk.folder_of folder ≡ string_bytes start.now.lists) }
{
    match RealDisk::new(alloc, rt, start.lists.as_str()) {
        Ok(folder) => Ok(folder),
        Err(_) => Err(NoMemory),
    }
}

/// The coordinator's method and one for each worker that the environment asks for. None is opened.
pub fn methods_of<V, R>(rt: R, environment: &V) -> Result<Vec<RealMethod<R>>, Refused>
where
    V: Environment,
    R: Files<File = File> + Net<Stream = TcpStream> + AllocGlobal + Copy,
    ensures lanes { IfSome (V.known environment.now) (λ known. IfOk result (λ methods. vec_len methods ≡ suc (known_lanes known))) }
    ensures few { IfOk result (λ methods. (1 ≤ vec_len methods) × (vec_len methods ≤ 9)) }
{
    let workers = read_lanes(rt.alloc(), environment)?;
    match methods_for(rt.alloc(), rt, workers) {
        Ok(methods) => Ok(methods),
        Err(NoMemory) => Err(Refused::NoMemory),
    }
}

/// The coordinator's method and one for each of so many workers: files of the system and peers over TCP.
fn methods_for<R>(alloc: Global, rt: R, workers: u8) -> Result<Vec<RealMethod<R>>, NoMemory>
where
    R: Files<File = File> + Net<Stream = TcpStream> + AllocGlobal + Copy,
    requires { workers ≤ 8 }
    ensures { IfOk result (λ methods. vec_len methods ≡ suc workers) }
{
    let mut methods = Vec::with_capacity(alloc, workers as usize + 1)?;
    for _ in 0..workers + 1 {
        let files = FileMethod::new(RealTree::new(rt));
        let peers = HttpMethod::new(TcpLink::new(rt));
        methods.push(BothMethod::new(files, peers))?;
    }
    Ok(methods)
}
