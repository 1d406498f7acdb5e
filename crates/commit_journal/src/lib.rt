//! The journal of the lists folder: a commit's record is written behind a shut gate, the gate is opened, the record is
//! carried out and the gate shut again. Stopped at any moment and opened again, the folder has the lists before the
//! commit or those after it, whole.
//!
//! `open_journal`, whatever a stop has left: at every moment of the call, each thing that a crash may leave stands for
//! the lists that something stood for that a crash might have left before (`recovers`); at the end the journal is
//! there and shut in all that a crash may leave (`idle`), and where the disk was synced it has the lists that its
//! reads stood for (`rests`, `lists`). Damage is told exactly where the gate is open before what is no record, with
//! its place (`damage`), and changes no file (`unchanged`); without an open gate it takes no memory (`thrifty`). All
//! of these but `rests`, and its `others`, are fields of the record in its clause `opens`. `prepare` puts what is to
//! change under names on their way and writes the record behind the shut gate: at every moment the lists stay
//! (`moments`), and then a commit may be made (`can_commit`, `ready`). `commit` takes no memory, and its only error is
//! a fault: at every moment a crash leaves the lists before or those after, of all sources of the commit together
//! (`moments`), from its first sync on those after (`turns`), and at the end those after, with the gate shut (`rests`,
//! `idle`), and what it removes is no file's (`gone`). So commits one after another, stopped at any moment and opened
//! again, leave the lists after the first of them, at least those that were acknowledged and at most those that were
//! begun (`commits_are_whole`, a law). Where a commit may be made, its record is what a crash leaves
//! (`ready_is_recorded`, a law), and changes may be recorded just where a record may have their steps
//! (`recorded_is_read`, a law). What has lists once its journal is opened has no damage that an opening would tell
//! (`whole_is_undamaged`, a law). An opening leaves the files of all names but the journal, those of a record that it
//! carries out, and `partial/journal` where a new journal is made; a preparation and a commit leave all but the
//! journal and what they change (`others`). Each call answers a fault only where the disk's count rose, and none goes
//! untold (`frame`).
#![tactic(auto)]

pub use changing::{Change, Content};
pub use committing::commit;
pub use error::JournalError;
pub use laws::{commits_are_whole, ready_is_recorded, recorded_is_read, whole_is_undamaged};
pub use opening::{Journal, open_journal};
pub use prepared::Prepared;
pub use preparing::prepare;

mod changing;
mod committing;
mod error;
mod filling;
mod laws;
mod making;
mod noting;
mod opening;
mod prepared;
mod preparing;
mod recording;
mod recovery;
