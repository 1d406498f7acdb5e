//! The jobs of a run over several lanes: they go out to workers, their words are taken in as they come, and what no worker
//! takes, and what is out once workers are given up, the coordinator fetches by its own method.
//!
//! `ask_some` hands jobs out and takes a word in, after which sources may be settled and committed. A list's pieces go into its
//! file on its way as they come, and only the coordinator touches the disk. In whatever order words come, each answer of the run
//! so far is the mirror's, where all methods tell one, and of a list that came into its file where the disk tells too, or a fault
//! that its lane's method counted; what the board wants of the lists on their way is on the disk; and where the disk tells, a list
//! that isn't being filled is as it was, or as an answer left it (`goes`). Where `ask_some` answers false no job is out (`quiet`)
//! and no item asks (`none`). Once workers are given up no job is out behind the call (`alone`). Over the coordinator's lane just
//! as many fetches were begun as the log tells, and each worker was handed as many jobs or one more (`begins`). No file changes but those in
//! the folder of lists on their way (`others`), what is at rest stays so at every moment (`moments`), the mirrors stay and no
//! method's count falls (`methods`), and a fault of the disk is told just where its count rose (`frame`). That a word comes, that
//! jobs go out to workers, and that an answer comes at all is claimed nowhere.
#![tactic(auto)]

pub use asking::ask_some;
pub use transfers::{Transfer, Transfers};

mod answering;
mod asking;
mod handing;
mod own;
mod taking;
mod transfers;
