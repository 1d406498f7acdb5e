//! The program `object_calls`: makes the calls that the lines of its standard input name, one after another, on real files
//! and sockets and on a lists folder in memory, and prints what each answers.
//!
//! A line is an object, a call and its arguments, with one blank between them. `disk`, `etc`, `tree`, `written`, `clock`,
//! `input`, `sink`, `link` and `port` are the objects of the operating system that `acq_real` and `acq_net` have; `files` is
//! the system itself, by which something is put or taken away behind their backs, and `peer` the other side of the link.
//! `loopback serve FOLDER PATH` serves a folder in one thread and asks for a path over TCP in another. `memory sums N TEXT`
//! sums the lists that a sources list of this text plans, side by side in at most N threads.
//! `memory` is a lists folder in memory, and `memory-written`, `memory-input` and `memory-port` are written files, an input
//! and a port in memory. The program's own standard input holds the lines, so `input` reads a file in its place. In an
//! argument `\n` and `\r` are line ends, `\x20` is the byte of that number, and `""` is the empty text. An empty line and one
//! that begins with `#` are printed again. All paths are below one folder of its own, which is made first and removed last.
#![tactic(auto)]

use objects::Objects;
use page::Page;
use std::thread::Threads;
use std::{env, fs, io, process};

mod answers;
mod disk;
mod etc;
mod files;
mod folder;
mod input;
mod loopback;
mod memory;
mod network;
mod objects;
mod page;
mod peer;
mod port;
mod sums;
mod system;
mod tree;
mod words;
mod written;

fn main(rt: HostRuntime) -> io::Result<()> {
    let own = own_folder(&rt)?;
    fs::create_dir(&rt, own.as_str())?;
    let ran = answer_all(&rt, rt, own.as_str());
    fs::remove_dir_all(&rt, own.as_str())?;
    ran
}

/// A path of this run's own, at which there is nothing.
fn own_folder(rt: &HostRuntime) -> io::Result<String> {
    let alloc = rt.alloc();
    let id = process::id(rt.process());
    let temporary = env::temp_dir(rt)?;
    Ok(format!(in alloc; "{}/object_calls_{id}", temporary.as_str())?)
}

/// Answers each line. The threads are those of the system.
fn answer_all<T: Threads + Sync>(threads: &T, rt: HostRuntime, own: &str) -> io::Result<()> {
    let mut objects = Objects::new(rt, own)?;
    for line in rt.lines(rt.alloc()) {
        answer(threads, rt, own, &mut objects, line?.as_str())?;
    }
    Ok(())
}

/// Prints a line, behind a call what it answers.
fn answer<T: Threads + Sync>(
    threads: &T,
    rt: HostRuntime,
    own: &str,
    objects: &mut Objects,
    line: &str,
) -> io::Result<()> {
    if line.is_empty() || line.starts_with('#') {
        return println!(rt; "{line}");
    }
    let mut page = Page::new(rt.alloc());
    let answered = if let Some(words) = line.strip_prefix("loopback serve ") {
        loopback::answer(threads, rt, &mut page, own, words)
    } else if let Some(words) = line.strip_prefix("memory sums ") {
        objects.sums(threads, &mut page, words)
    } else {
        objects.answer(&mut page, line)
    };
    match (answered, page.text()) {
        (Ok(()), Ok(text)) => println!(rt; "{line} -> {text}"),
        (Err(refused), _) | (_, Err(refused)) => println!(rt; "{line} -> {refused}"),
    }
}
