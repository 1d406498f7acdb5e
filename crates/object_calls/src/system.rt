//! The objects of the operating system.

use crate::disk::Disks;
use crate::page::Page;
use crate::words::Refused;
use crate::{etc, files, input, tree, written};
use acq_base::Text;
use acq_outside::{Clock, Sink};
use acq_real::{RealClock, RealEtc, RealFiles, RealInlet, RealSink, RealTree};
use std::alloc::AllocError;
use std::fs::File;

/// 1 January 2020, 00:00:00 UTC, in seconds since 1970 began.
const YEAR_2020: i64 = 1_577_836_800;

/// The objects of the operating system.
#[derive(Drop)]
pub struct System {
    rt: HostRuntime,
    /// The folder of this run, below which all paths are.
    own: String,
    disks: Disks,
    etc: etc::Real,
    tree: RealTree<HostRuntime>,
    written: RealFiles<HostRuntime>,
    input: Option<RealInlet<File>>,
}

impl System {
    /// Objects over folders that no line has named yet.
    pub fn new(rt: HostRuntime, own: &str) -> Result<System, AllocError> {
        let alloc = rt.alloc();
        Ok(System {
            rt,
            own: String::from_str(alloc, own)?,
            disks: Disks::new(rt, own)?,
            etc: RealEtc::new(alloc, rt, own)?,
            tree: RealTree::new(rt),
            written: RealFiles::new(rt),
            input: None,
        })
    }

    /// Puts what a call of one of them answers.
    pub fn answer(
        &mut self,
        page: &mut Page,
        object: &str,
        call: &str,
        words: &[Text],
    ) -> Result<(), Refused> {
        let own = self.own.as_str();
        let alloc = self.rt.alloc();
        match object {
            "disk" => self.disks.answer(page, own, call, words),
            "files" => files::answer(self.rt, page, own, call, words),
            "tree" => tree::answer(self.rt, page, &mut self.tree, own, call, words),
            "written" => written::answer(alloc, page, &mut self.written, own, call, words),
            _ if call == "open" => self.open(page, object, words),
            "etc" => etc::answer(self.rt, page, &mut self.etc, call, words),
            "input" => input::answer(alloc, page, &mut self.input, call, words),
            _ => moment_or_text(self.rt, page, object, call, words),
        }
    }

    /// Opens a configuration folder or an input in place of the former one.
    fn open(&mut self, page: &mut Page, object: &str, words: &[Text]) -> Result<(), Refused> {
        let [path] = words else {
            return Err(Refused::NoCall);
        };
        match object {
            "etc" => self.etc = etc::open(self.rt, self.own.as_str(), path)?,
            "input" => self.input = Some(input::open(self.rt, self.own.as_str(), path)?),
            _ => return Err(Refused::NoCall),
        }
        page.put("opened");
        Ok(())
    }
}

/// Puts on which side of the year 2020 the clock's moment is, or writes a text to the output, before the line that says so.
fn moment_or_text(
    rt: HostRuntime,
    page: &mut Page,
    object: &str,
    call: &str,
    words: &[Text],
) -> Result<(), Refused> {
    match (object, call, words) {
        ("clock", "moment", []) => {
            let is_later = RealClock::new(rt).moment() > YEAR_2020;
            page.put(if is_later {
                "later than 2020 began"
            } else {
                "earlier"
            });
        }
        ("sink", "write", [text]) => page.put_done(RealSink::new(rt).write(text.as_bytes())),
        _ => return Err(Refused::NoCall),
    }
    Ok(())
}
