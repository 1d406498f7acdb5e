//! The file of a package. It touches nothing.

use acq_base::{ListName, Sum, Text, Uri};

/// The file of a version of a package, as installed lists name it.
#[derive(Debug, PartialEq, Drop)]
pub struct Deb {
    /// Where it is: the base of its source with the path below it.
    pub uri: Uri,
    /// Where it is below the base of its source, as the list has it.
    pub path: Text,
    /// The last segment of the path, under which it is fetched.
    pub file: ListName,
    /// Its size and SHA-256 hash.
    pub sum: Sum,
}
