//! What every layer of the engine speaks in: texts, rows, sums, URIs, plans, jobs and settings.
//!
//! Contracts see a `Text` as the list of its bytes and a `Row` as the list of its cells, so a struct of them reads as
//! plain data. What takes memory is handed an allocator and may answer `NoMemory`.
//!
//! The definitions that the contracts of all layers cite stand in specs/: `Digits` has numbers as texts write them, `Sum`
//! a file's sum and the texts of one, `Uri` a URI's text, its list name and what makes it sound, `Mirror` the answer that
//! a mirror has under a URI, `Plan`, `Fetch` and `Settings` what makes plans, mirrors, replies and settings sound, `Words`
//! blanks and words.
//!
//! `sum_of` is length and SHA-256 of the bytes; `read_sum` answers exactly its definition (`value`), is Ok exactly
//! where hash and size are of their forms (`ok`), and names the hash first (`bad_hash`); `read_digits` is exactly
//! the number that 1 to 20 digits write (`value`). A copy is equal to what it copies. `trim_blanks`, `words` and
//! their kin are their definitions. Each source of a sound plan has what calls on one source may rely on
//! (`sources_are_planned`, a law). Only tested: printed texts, FIPS 180-4's examples.
#![tactic(auto)]

pub use blank::{is_blank, listed_words, trim_blanks, trim_blanks_end, trim_blanks_start, words};
pub use copying::TryCopy;
pub use digits::read_digits;
pub use fetch::{Answer, Job, Mirror, NotServed, Reply};
pub use installed::Old;
pub use memory::NoMemory;
pub use plan::{ByHash, Kind, Plan, Source, Target, sources_are_planned};
pub use refusal::Refusal;
pub use row::{Bytes, Row};
pub use settings::{Dates, Pick, Settings};
pub use sum::{Sha, Sum, SumError, read_sum, sum_of};
pub use text::Text;
pub use uri::{ListName, Scheme, Uri};

mod blank;
mod copying;
mod digits;
mod fetch;
mod installed;
mod memory;
mod plan;
mod refusal;
mod row;
mod settings;
mod sum;
mod text;
mod uri;
