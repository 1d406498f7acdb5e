//! Runs the call that the program makes over objects in memory, as the blocks of the standard input say, and prints what
//! came of each.
//!
//! A block is a case and ends at an empty line. Its words are those of `case_words`: bare, or with pieces between `"`. A line
//! `# HEADING` between blocks is printed again. The first word of a line says what it is.
//!
//! | Line | Says |
//! |---|---|
//! | `given` | the first line of a block whose lines are those of each case behind it, until the next such block |
//! | `case NAME ..` | the first line of a case: what it shows |
//! | `word W` | a word of the command line |
//! | `etc FILE B` | a file of the configuration folder |
//! | `disk NAME B` | a file of the lists folder before |
//! | `held` | another process holds the lists folder |
//! | `place NAME B` | a file of the folder for package files before |
//! | `mirror URI B` | a file that the mirror has |
//! | `moved URI URI`, `moved URI -` | a move that it tells, or one to no URI of this profile |
//! | `absent URI N` | what it refuses, with this status |
//! | `methods N` | how many methods there are, if not one |
//! | `input B ..` | bytes of the input |
//! | `look PATH` | a file of the method's that is told |
//! | `file PATH B` | a file of the tree that is served |
//! | `peer B ..` | what the peer of the next connection says, piece by piece |
//! | `fail OBJECT N ..` | the calls that fail, counted from 1 |
//! | `stop NAME` | the call is stopped in the folder for package files too: what crashes leave of this file |
//!
//! An OBJECT is `begin` or `more` of the methods, `disk`, `etc`, `sink`, `place`, `input`, `files`, `port` or `tree`. A call
//! is stopped behind each of its calls of that folder, and the last time behind its end; each time a crash is tried in 16
//! ways.
//!
//! Of two files of one name the later one stands, and of two lines of the mirror for one URI the later one.
#![tactic(auto)]

use case_words::{Page, Refused};
use scene::Scene;
use std::alloc::AllocError;
use std::io;
use std::sync::Wait;
use std::thread::Threads;

mod calling;
mod counted;
mod folders;
mod objects;
mod scene;
mod steps;
mod stops;
mod telling;

/// Takes a line, and puts what comes of it on the page.
fn take<R>(rt: &R, scene: &mut Scene, page: &mut Page, line: &str)
where
    R: AllocGlobal + Threads + Wait + Copy + Send + Sync + 'static,
{
    if let Err(refused) = scene.take(rt, page, line) {
        put_refusal(page, refused);
    }
}

/// Puts why a line or a case comes to nothing.
fn put_refusal(page: &mut Page, refused: Refused) {
    page.put(match refused {
        Refused::NoCall => "  no case\n",
        Refused::Unread => "  a text of it is refused\n",
        Refused::NoMemory => "  no memory\n",
    });
}

/// Prints a page.
fn print_page(rt: &impl Print, page: Page) -> io::Result<()> {
    match page.finish() {
        Ok(text) => print!(rt; "{text}"),
        Err(_) => Err(io::Error::from(AllocError)),
    }
}

/// Takes a line, and prints what comes of it.
fn print_line<R>(rt: &R, scene: &mut Scene, line: &str) -> io::Result<()>
where
    R: AllocGlobal + Print + Threads + Wait + Copy + Send + Sync + 'static,
{
    let mut page = Page::new(rt.alloc());
    take(rt, scene, &mut page, line);
    print_page(rt, page)
}

/// Takes the lines of the standard input, and prints what comes of each. The scene is the caller's, so that no exit here
/// lets go of one: that would take minutes to prove.
fn print_all<R>(rt: &R, scene: &mut Scene) -> io::Result<()>
where
    R: AllocGlobal + Input + Print + Threads + Wait + Copy + Send + Sync + 'static,
{
    for line in rt.lines(rt.alloc()) {
        print_line(rt, scene, line?.as_str())?;
    }
    print_line(rt, scene, "")
}

fn main(rt: HostRuntime) -> io::Result<()> {
    print_all(&rt, &mut Scene::new(rt.alloc()))
}
