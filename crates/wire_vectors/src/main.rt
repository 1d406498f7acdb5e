//! The program `wire_vectors`: reads cases of what is said between the engine, its methods and their peers, and prints what
//! each comes to.
//!
//! A case is a line, `NAME: STEPS`, and the lines behind it that begin with blanks. A step is a word and its arguments:
//! numbers, and texts between quotation marks, in which `\r`, `\n` and `\x00` are bytes. A line that begins with `#` is
//! printed again.
#![tactic(auto)]

use cases::{Case, Refused, Step, read_case};
use page::Page;
use std::alloc::Global;
use std::io;

mod cases;
mod dice;
mod fetches;
mod links;
mod messages;
mod methods;
mod page;
mod served;
mod serving;
mod streams;
mod trees;

fn main(rt: HostRuntime) -> io::Result<()> {
    let mut case = String::new(rt.alloc());
    for line in rt.lines(rt.alloc()) {
        let line = line?;
        if line.starts_with(' ') {
            case.push_str(line.as_str())?;
        } else {
            answer(&rt, case.as_str())?;
            case = line;
        }
    }
    answer(&rt, case.as_str())
}

/// Prints what a case comes to.
fn answer(rt: &HostRuntime, text: &str) -> io::Result<()> {
    if text.is_empty() {
        return Ok(());
    }
    if text.starts_with('#') {
        return println!(rt; "{text}");
    }
    match read_case(rt.alloc(), text) {
        Ok(case) => tell(rt, &case),
        Err(refused) => println!(rt; "{text}: {refused}"),
    }
}

/// Prints the name of a case and what it comes to.
fn tell(rt: &HostRuntime, case: &Case) -> io::Result<()> {
    let name = case.name.as_str();
    let mut page = Page::new(rt.alloc());
    let answered = answered(rt.alloc(), &mut page, case.steps.as_slice());
    match (answered, page.text()) {
        (Ok(()), Ok(text)) => println!(rt; "{name}:{text}"),
        (Err(refused), _) | (_, Err(refused)) => println!(rt; "{name}: {refused}"),
    }
}

/// Puts what a case comes to, each part behind a blank. Its first step says of what it is one.
fn answered(alloc: Global, page: &mut Page, steps: &[Step]) -> Result<(), Refused> {
    let [first, steps @ ..] = steps else {
        return Err(Refused::NoCase);
    };
    let name = first.name.as_str();
    let arguments = first.arguments.as_slice();
    match name {
        "heard" | "state" | "request" => streams::answer(alloc, page, name, arguments),
        "wire" => streams::answer_steps(alloc, page, arguments, steps),
        "written" | "refused" | "counted" | "again" | "drawn" => {
            messages::answer(alloc, page, name, arguments)
        }
        "reader" => messages::answer_steps(alloc, page, steps),
        "link" => links::answer(alloc, page, steps),
        "files" => trees::answer(alloc, page, steps),
        "serve-file" | "serve-http" | "serve-link" => {
            serving::answer(alloc, page, name, arguments, steps)
        }
        "server" => served::answer(alloc, page, arguments, steps),
        _ => methods::answer(alloc, page, name, arguments, steps),
    }
}
