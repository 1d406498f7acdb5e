//! Runs the top call, a board or an item over objects in memory, as the blocks of the standard input say, and prints what
//! came of it.
//!
//! A block is a scenario and ends at an empty line. A line `# HEADING` between blocks is printed again. The first word of a
//! line says what it is; what stands in `"` is bytes.
//!
//! | Line | Says |
//! |---|---|
//! | `scenario NAME` | what it shows; the first line |
//! | `word "W"` | a word of the command line |
//! | `etc FILE "B"` | a file of the configuration folder |
//! | `now N` | the moment, in seconds since 1970-01-01 00:00:00 UTC |
//! | `mirror URI served "B"`, `letters N` | what a mirror has: a file, or one of so many letters `a` |
//! | `mirror URI moved URI`, `moved -`, `absent N` | a move, one to no URI of this profile, or a refusal with this status |
//! | `tree PATH "B"` | a file of a tree, in place of a mirror |
//! | `server ROOT HOST PORT` | the tree's files below ROOT are asked for over HTTP, of the program's own server at this place |
//! | `peer "B" "B" ..` | what the peer of the next connection says, piece by piece, in place of a mirror |
//! | `methods N` | how many methods there are |
//! | `disk NAME "B"` | a file of the lists folder before |
//! | `held` | another process holds the lists folder |
//! | `fails OBJECT N ..` | the calls that fail, from 1 on: `begin` and `more` of each method, `disk`, `etc`, `sink`, `tree`, `link` |
//! | `lane L begin N ..`, `lane L more N ..` | those of the method of this number, from 0 on, in place of those of each |
//! | `gate HOST OTHER` | a fetch from the host is held until one from the other host was answered |
//! | `tell WORD ..` | what is told too: `log`, `faults`, `moments`, `partial`, `journal`, `untouched`, `items`: the asks list by list, `lanes`: which methods answered, and how many came back |
//! | `stop N C ..` | the run is stopped after so many calls of the lists folder; the crash leaves what these bytes choose |
//! | `stop all N` | so it is after each call, of which there are N at least, in each of 16 ways |
//! | `stop fault N` | each call of the lists folder fails by itself |
//! | `then` | a further run over the lists folder; words, configuration, moment and mirror stay until they are given anew |
//! | `call CALL` | a call of the lists folder, in place of a run |
//! | `crash N` | all that a crash may leave behind these calls, by choices of so many bits |
//! | `crash by C ..` | what it leaves by this choice, and further calls go on from there |
//! | `board` | the board of all sources alone is run, under three orders of answers, in place of the top call |
//! | `item` | one item alone: that of the first list, or where no Release is in the folder that of the Release |
//! | `single` | the first list alone, as a single file of the sum that the Release in the folder lists |
//! | `faulty URI N` | how often an ask of a board at this URI fails |
//! | `mirror URI whole "B"`, `big`, `garbled N` | to a board: a file of which no rest is given, one too big for any ask, an answer that breaks the protocol there |
//! | `made N` | how many bytes the mirrors of this number have, first and second day, without patches |
#![tactic(auto)]

use case_words::Page;
use refused::Refused;
use scene::Scene;
use std::alloc::AllocError;
use std::io;
use std::sync::Wait;
use std::thread::Threads;

mod answers;
mod beginning;
mod board;
mod change;
mod crashes;
mod ends;
mod folder;
mod gated;
mod generated;
mod given;
mod items;
mod lines;
mod objects;
mod quoted;
mod refused;
mod running;
mod scene;
mod sets;
mod stops;
mod telling;
mod watch;

/// Takes a line of a scenario, and puts what is to be printed on the page.
fn take<R>(rt: &R, scene: &mut Scene, page: &mut Page, number: u64, line: &str)
where
    R: AllocGlobal + Threads + Wait + Copy + Send + Sync + 'static,
{
    if line.is_empty() {
        end(rt, scene, page, number);
        page.put("\n");
    } else if let Err(refused) = scene.take(rt, page, line) {
        scene.refuse();
        put_refusal(page, number, refused);
    }
}

/// Ends a scenario before this line, and puts what its last run came to on the page.
fn end<R>(rt: &R, scene: &mut Scene, page: &mut Page, number: u64)
where
    R: AllocGlobal + Threads + Wait + Copy + Send + Sync + 'static,
{
    if let Err(refused) = scene.end(rt, page) {
        put_refusal(page, number, refused);
    }
    *scene = Scene::new(rt.alloc());
}

/// Puts why a line is refused.
fn put_refusal(page: &mut Page, number: u64, refused: Refused) {
    page.put("line ");
    page.show(number);
    page.put(": ");
    page.show(refused);
    page.put("\n");
}

/// Prints a page.
fn print_page(rt: &impl Print, page: Page) -> io::Result<()> {
    match page.finish() {
        Ok(text) => print!(rt; "{text}"),
        Err(_) => Err(io::Error::from(AllocError)),
    }
}

/// Takes a line, and prints what comes of it.
fn print_line<R>(rt: &R, scene: &mut Scene, number: u64, line: &str) -> io::Result<()>
where
    R: AllocGlobal + Print + Threads + Wait + Copy + Send + Sync + 'static,
{
    let mut page = Page::new(rt.alloc());
    take(rt, scene, &mut page, number, line);
    print_page(rt, page)
}

/// Prints what the last scenario came to, of which no line ends it.
fn print_end<R>(rt: &R, scene: &mut Scene, number: u64) -> io::Result<()>
where
    R: AllocGlobal + Print + Threads + Wait + Copy + Send + Sync + 'static,
{
    let mut page = Page::new(rt.alloc());
    end(rt, scene, &mut page, number);
    print_page(rt, page)
}

/// Takes the lines of the standard input, and prints what comes of each. The scene is the caller's, so that no exit here
/// lets go of one: that would take minutes to prove.
fn print_all<R>(rt: &R, scene: &mut Scene) -> io::Result<()>
where
    R: AllocGlobal + Input + Print + Threads + Wait + Copy + Send + Sync + 'static,
{
    let mut number: u64 = 0;
    for line in rt.lines(rt.alloc()) {
        number = number.saturating_add(1);
        print_line(rt, scene, number, line?.as_str())?;
    }
    print_end(rt, scene, number.saturating_add(1))
}

fn main(rt: HostRuntime) -> io::Result<()> {
    print_all(&rt, &mut Scene::new(rt.alloc()))
}
