//! One job of a run, heard word by word: what comes goes into memory, or into its list's file under `partial/` over any
//! disk, its sum taken on the way.
//!
//! What has come of a job so far is a value, `Intake`, and `hear` takes in the next word of a method: a piece leads on
//! to the next place, any other word to the answer (`leads`). Whatever the method's count of faults and its mirror, what
//! has come is the mirror's so far, and so is the answer in the end (`hears`); a fault of the method is told with that
//! count, and a file came to where it was to go (`ends`); an error leaves the method's count (`dry`). Only the list's
//! file changes, nothing at a word of no file (`touches`), and its front that the job leaves out stays (`kept`). So
//! several jobs can be under way, each with words of its own.
//!
//! `fetch_staged` is a whole fetch into such a file by one method, a loop over its words. Where the method and the disk
//! tell, what it comes to is what the mirror answers to that job beside what was on its way (`answer`), and a file that
//! came lasts there with the sum that is told (`staged`). What a job leaves out stays at the file's front (`front`); an
//! end that served nothing leaves the file as it was, or with bytes that came behind (`left`). A fault of the method is
//! told, and comes only where its count rose in that call (`counted`, `method_dry`). At every moment lists stay, and
//! where no change of another name was pending, a crash leaves all other files as it might have left them before, in a
//! folder without a journal too (`staging`). These are fields of the record in its clause `comes`. It begins one fetch
//! (`begins`).
#![tactic(auto)]

pub use hearing::hear;
pub use intake::{Heard, Intake};
pub use staged::fetch_staged;

mod filling;
mod hearing;
mod intake;
mod staged;
