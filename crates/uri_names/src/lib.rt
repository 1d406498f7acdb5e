//! URIs of this profile: reading them, what lies below a base, where a redirect leads, and the names under which their
//! files are installed.
//!
//! The syntax is that of the URL Standard, by the crate `url`; the definitions of `specs/` say what the profile takes
//! of it. What takes memory is handed an allocator.
//!
//! `read_uri`, `read_base`, `resolve`, `below`, `host_key`, `list_name` and `uri_text` are their definitions
//! (`value`), which stand on the definition of the URL Standard's parser in the crate `url`. A refusal has its
//! reason in the text (`refused`). What the readers give is sound (`sound`), in that standard's spelling (`normal`;
//! of a base `base`), and reads back from its text where that has at most 4,096 bytes (`again`). What `below`
//! leaves of dot segments is what the rounds of RFC 3986, section 5.2.4, end with (`rounds`). Two sound URIs with
//! one list name are one URI (`names_are_apart`); each sound URI's list name holds a `_` (`marked`). What lies
//! below a sound base, under a list name that isn't too long, is sound (`files_below_are_sound`, a law).
#![tactic(auto)]

pub use error::UriError;
pub use folder::{below, files_below_are_sound};
pub use names::{host_key, list_name, names_are_apart, uri_text};
pub use reading::{read_base, read_uri};
pub use redirect::resolve;

mod error;
mod folder;
mod names;
mod parts;
mod reading;
mod redirect;
