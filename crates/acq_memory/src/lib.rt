//! The outside in memory: a disk, a configuration folder, a method, served files, written files, an input, an output
//! and a clock. Each tells what it holds, and which of its calls fail is said when it is made. The disk keeps its
//! changes, so that it can be crashed: a choice of bytes stands for each thing that a crash may leave.
//!
//! The objects meet their traits' clauses, fail exactly the calls of their row but for want of memory (`listed`,
//! `others`), and a failed call of a disk or of written files changes nothing (`failed`, `err`). An input fills what it
//! is handed as far as its bytes reach (`filled`), and counts its ends one by one (`once`). The disk may crash:
//! `MemDisk::crashed` is what a choice leaves of it, and is among what acq_outside's crash model says that a crash may
//! leave.
#![tactic(auto)]

pub use fixed_clock::FixedClock;
pub use map_method::MapMethod;
pub use mem_disk::MemDisk;
pub use mem_etc::MemEtc;
pub use mem_files::MemFiles;
pub use mem_inlet::MemInlet;
pub use mem_sink::MemSink;
pub use mem_tree::MemTree;

mod changes;
mod choice;
mod failing;
mod fixed_clock;
mod front;
mod held;
mod history;
mod image;
mod map_method;
mod mem_disk;
mod mem_etc;
mod mem_files;
mod mem_inlet;
mod mem_sink;
mod mem_tree;
mod name_map;
mod replay;
mod start;
