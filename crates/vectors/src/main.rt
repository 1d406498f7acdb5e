//! The program `vectors`: reads calls of the readers of Releases, sources, apt.conf and URIs, and of plans, configurations and
//! reports, one a line, and prints what each answers.
//!
//! A line that begins with `#` is a heading and is printed again, as an empty one is. `file`, `option` and `fails` put into the
//! folder that the next `configure` reads. A line that is no call is told as one.
#![tactic(auto)]

use case_words::tell;
use folder::Folder;
use std::io::{self, BufRead, BufReader};

mod calls;
mod copies;
mod folder;
mod lists;
mod places;
mod plans;
mod releases;
mod reports;
mod settings;
mod uris;
mod vanishing;

fn main(rt: HostRuntime) -> io::Result<()> {
    let mut folder = Folder::new(rt.alloc());
    for line in BufReader::new(rt.alloc(), rt.reader())?.lines(rt.alloc()) {
        let line = line?;
        if line.is_empty() || line.starts_with('#') {
            println!(rt; "{line}")?;
        } else {
            let answer = calls::answer(rt.alloc(), &mut folder, line.as_str());
            tell(&rt, line.as_str(), answer)?;
        }
    }
    Ok(())
}
