//! Which files and folders are this process's alone, as functions of what the system says of them.
ghost use Rattle.std.specs.Prelude.{◌≡◌, ◌↔◌, IsTrue};
ghost use Rattle.std.specs.Fs.{metadata_mode};
ghost use Rattle.acq_real.specs.Ownership.{IsPrivate, IsPrivateFile, ShowsMode};

use std::fs::Metadata;
use std::os::unix::fs::MetadataExt;

/// The permission bits by which somebody else than the owner may write.
const OTHERS_WRITE: u32 = 0o022;

/// Who owns what stands at a path, how many names lead to it, and its permission bits.
#[derive(Clone, Copy)]
pub struct Standing {
    pub owner: u32,
    pub links: u64,
    pub mode: u32,
}

/// What the system found at a path, what was looked at of it, and the user as whom this process acted then.
#[derive(Drop)]
pub struct Found {
    pub metadata: Metadata,
    pub standing: Standing,
    pub user: u32,
}

/// What the system says of it.
fn standing_of(found: &Metadata) -> Standing
    ensures mode { result.mode ≡ metadata_mode found.now }
{
    Standing {
        owner: found.uid(),
        links: found.nlink(),
        mode: found.mode(),
    }
}

/// Looks whose it is that the system found.
pub fn look(metadata: Metadata) -> Found
    ensures same { result.metadata ≡ metadata }
    ensures mode { ShowsMode result }
{
    Found {
        standing: standing_of(&metadata),
        user: libc::geteuid(),
        metadata,
    }
}

/// Whether it is this user's, and nobody else may write it.
pub fn is_private(standing: Standing, user: u32) -> bool
    ensures { IsTrue result ↔ IsPrivate standing user }
{
    standing.owner == user && standing.mode & OTHERS_WRITE == 0
}

/// Whether it is so and has no second name, by which another folder would lead to it.
pub fn is_private_file(standing: Standing, user: u32) -> bool
    ensures { IsTrue result ↔ IsPrivateFile standing user }
{
    is_private(standing, user) && standing.links == 1
}
