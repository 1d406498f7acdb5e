//! The objects that lines name.

use crate::memory::Memory;
use crate::network::Network;
use crate::page::Page;
use crate::system::System;
use crate::words::{Refused, texts};
use crate::{input, port, written};
use acq_base::{Row, Text};
use acq_memory::{MemFiles, MemInlet};
use acq_net::MemPort;
use std::alloc::{AllocError, Global};
use std::thread::Threads;

/// The objects of a run.
#[derive(Drop)]
pub struct Objects {
    alloc: Global,
    system: System,
    network: Network,
    memory: Memory,
    in_memory: InMemory,
}

/// The objects in memory beside the lists folder.
#[derive(Drop)]
struct InMemory {
    written: MemFiles,
    input: Option<MemInlet>,
    port: MemPort,
}

impl Objects {
    /// Objects over folders that no line has named yet.
    pub fn new(rt: HostRuntime, own: &str) -> Result<Objects, AllocError> {
        let alloc = rt.alloc();
        Ok(Objects {
            alloc,
            system: System::new(rt, own)?,
            network: Network::new(rt),
            memory: Memory::new(alloc),
            in_memory: InMemory::new(alloc),
        })
    }

    /// Puts what the call of a line answers.
    pub fn answer(&mut self, page: &mut Page, line: &str) -> Result<(), Refused> {
        let words: Vec<&str> = line.split(' ').collect(self.alloc)?;
        let [object, call, words @ ..] = words.as_slice() else {
            return Err(Refused::NoCall);
        };
        let words = texts(self.alloc, words)?;
        self.call(page, object, call, words.as_slice())
    }

    /// Puts the sums of lists of the lists folder in memory.
    pub fn sums<T: Threads + Sync>(
        &mut self,
        threads: &T,
        page: &mut Page,
        words: &str,
    ) -> Result<(), Refused> {
        let words: Vec<&str> = words.split(' ').collect(self.alloc)?;
        let words = texts(self.alloc, words.as_slice())?;
        self.memory.sums(threads, page, words.as_slice())
    }

    fn call(
        &mut self,
        page: &mut Page,
        object: &str,
        call: &str,
        words: &[Text],
    ) -> Result<(), Refused> {
        match object {
            "memory" => self.memory.answer(page, call, words),
            "memory-written" | "memory-input" | "memory-port" => {
                self.in_memory.answer(self.alloc, page, object, call, words)
            }
            "link" | "peer" | "port" => self.network.answer(page, object, call, words),
            _ => self.system.answer(page, object, call, words),
        }
    }
}

impl InMemory {
    /// Objects that no line has begun.
    fn new(alloc: Global) -> InMemory {
        InMemory {
            written: MemFiles::new(alloc, Row::new(alloc)),
            input: None,
            port: MemPort::new(alloc, Row::new(alloc), Row::new(alloc)),
        }
    }

    /// Puts what a call of one of them answers.
    fn answer(
        &mut self,
        alloc: Global,
        page: &mut Page,
        object: &str,
        call: &str,
        words: &[Text],
    ) -> Result<(), Refused> {
        match object {
            _ if call == "begin" => self.begin(alloc, page, object, words),
            "memory-written" => written::memory_answer(page, &mut self.written, call, words),
            "memory-input" => input::memory_answer(alloc, page, &mut self.input, call, words),
            _ => port::memory_answer(page, &mut self.port, call, words),
        }
    }

    /// Begins one of them anew: files with the numbers of the calls that are to fail, an input with a text before these.
    fn begin(
        &mut self,
        alloc: Global,
        page: &mut Page,
        object: &str,
        words: &[Text],
    ) -> Result<(), Refused> {
        match (object, words) {
            ("memory-written", failing) => {
                self.written = MemFiles::new(alloc, input::numbers(alloc, failing)?)
            }
            ("memory-input", [text, failing @ ..]) => {
                self.input = Some(input::begin(alloc, text, failing)?)
            }
            _ => self.port = port::begin(alloc, words)?,
        }
        page.put("begun");
        Ok(())
    }
}
