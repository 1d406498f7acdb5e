//! The outside as the operating system has it: a folder of lists, a configuration folder, served files, written files,
//! a clock, an input and an output.
//!
//! These adapters are the trusted edge. They tell no content; what is proved of them is that their count of faults
//! rises just where a call answers a fault, that the disk takes no name that may lead out of its folder, and what is
//! made of the values that the system answers: which entries are listed, which errors count, which moment a time is.
//!
//! Proved: no crash, a count that rises just where a call answers a fault; a name that leads out of the disk's folder
//! is a fault that counts and is never listed, and the disk keeps the folder that it is given (`inside`, `folder`);
//! names are sorted and each once (`sorted`), exactly the plain files and links whose names the calls take and have no
//! control character (`listing`, over the entries that the system gives); which files are this user's alone is a
//! function of owner, links and mode as they were looked at, of which the mode alone is proved to be what the system
//! gave (`is_private_file`, `mode` of `look`); a file is made only where nothing stands at its path (`anew` of
//! `way_to_make`); a file of `partial` that the disk opens was made by it, or is this user's alone by what the system
//! said of it when it was found; so is one that is moved out of it, and so is `partial` at each look (`own` of `open`,
//! `find_file`, `rename`, `find_partial`, `take_over`); a file that stayed open is handed out only for the path that
//! was noted with it (`path` of `serving`), what the disk opens for a name is noted with that name's path (`path` of
//! `open`, `open_or_make`), and behind a call that moved, replaced or removed a file none that is noted with their
//! paths is kept (`closed` of `move_one`, `remove_one`); where a call may have made, moved, replaced or removed a name
//! in the disk's folder itself, whatever it answered, that folder is due to be synced (`pending` of `make_file`,
//! `put_empty`, `move_one`, `remove_one`, `take_lock`), and it counts as synced just where a sync of it succeeded
//! (`sync_due`); what an error of the system means, seconds of a time and a line put on any output are functions with
//! clauses of their own; an answer of the system is a fault just where it is an error (`ok` of `counted`); a read of
//! an input takes from its reader, where that one's bytes are known, those that it gives and no other, and none where
//! it fails (`bytes` of the input's `read`), and a count rises where it gives the end and nowhere else (`frame`); a
//! file to be written is opened so that it is made or emptied at 0 alone, keeps the places that are named and may be
//! there before (`makes`, `empties`, `in_place`, `takes_present` of `way_to_write`); objects begin with no fault, no
//! end given and no moment given. Only tested: what calls do to a folder, links in each place among them, that each
//! call works on what it opened for its own name, that written files have their bytes at the places that were named,
//! that a second disk on one folder is `Held`, that `partial` of another user is taken over and what was looked at is
//! what is opened, that a file is read as an input, and that the output takes a line. That the standard input is read
//! is not tested, nor that what is synced lasts. A `partial` replaced by a link between two looks at it isn't seen,
//! nor is what another process puts in place of a file that is open.
#![tactic(auto)]

pub use clock::RealClock;
pub use disk::RealDisk;
pub use etc::RealEtc;
pub use files::RealFiles;
pub use inlet::RealInlet;
pub use sink::RealSink;
pub use tree::RealTree;

mod answer;
mod clock;
mod disk;
mod etc;
mod etc_folder;
mod files;
mod folder;
mod inlet;
mod listing;
mod opened;
mod ownership;
mod path;
mod sink;
mod tree;
