//! The lines of the standard input, block by block.

use crate::calling::put_case;
use crate::steps::Step;
use case_words::{Page, Refused};
use std::alloc::Global;
use std::sync::Wait;
use std::thread::Threads;

/// What a block is.
#[derive(Clone, Copy, PartialEq, Eq)]
enum Block {
    /// None has begun.
    None,
    /// What each case is given.
    Given,
    Case,
    /// A case with a line that is refused.
    Refused,
}

/// The lines of the block so far, behind those that each case is given.
#[derive(Drop)]
pub struct Scene {
    steps: Vec<Step>,
    /// How many of them each case is given.
    given: usize,
    block: Block,
}

impl Scene {
    /// Nothing is given yet.
    pub fn new(alloc: Global) -> Scene {
        Scene {
            steps: Vec::new(alloc),
            given: 0,
            block: Block::None,
        }
    }

    /// Takes a line, and puts what comes of it on the page.
    pub fn take<R>(&mut self, rt: &R, page: &mut Page, line: &str) -> Result<(), Refused>
    where
        R: AllocGlobal + Threads + Wait + Copy + Send + Sync + 'static,
    {
        if line.is_empty() {
            return self.end(rt, page);
        }
        match self.block {
            Block::None => self.begin(page, line),
            Block::Given | Block::Case => self.add(rt.alloc(), line),
            Block::Refused => Ok(()),
        }
    }

    /// Begins a block by its first line, or prints a heading again.
    fn begin(&mut self, page: &mut Page, line: &str) -> Result<(), Refused> {
        if line.starts_with('#') {
            page.put(line);
            page.put("\n");
            return Ok(());
        }
        if line == "given" {
            self.steps.clear();
            self.given = 0;
            self.block = Block::Given;
            return Ok(());
        }
        self.block = Block::Refused;
        let Some(name) = line.strip_prefix("case ") else {
            return Err(Refused::NoCall);
        };
        page.put(name);
        page.put("\n");
        self.block = Block::Case;
        Ok(())
    }

    /// Adds a line to the block.
    fn add(&mut self, alloc: Global, line: &str) -> Result<(), Refused> {
        match Step::read(alloc, line) {
            Ok(step) => {
                self.steps.push(step)?;
                Ok(())
            }
            Err(refused) => {
                self.block = Block::Refused;
                Err(refused)
            }
        }
    }

    /// Ends the block.
    fn end<R>(&mut self, rt: &R, page: &mut Page) -> Result<(), Refused>
    where
        R: AllocGlobal + Threads + Wait + Copy + Send + Sync + 'static,
    {
        let block = self.block;
        self.block = Block::None;
        match block {
            Block::None => Ok(()),
            Block::Given => {
                self.given = self.steps.len();
                Ok(())
            }
            Block::Case => {
                let put = put_case(rt, page, self.steps.as_slice());
                self.steps.truncate(self.given);
                put
            }
            Block::Refused => {
                self.steps.truncate(self.given);
                Ok(())
            }
        }
    }
}
