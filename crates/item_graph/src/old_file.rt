//! A list's installed file, beside which the list is asked for.

use acq_base::Bytes;
use lists_dir::Summed;

/// A list's installed file.
#[derive(Drop)]
pub enum OldFile {
    /// It is known by its sum alone.
    Summed(Summed),
    /// Its bytes are here, and patches may lead on from them.
    Read(Bytes),
}
