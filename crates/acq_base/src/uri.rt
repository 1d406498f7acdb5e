//! URIs of this profile and the names of their files.

use crate::{NoMemory, Text, TryCopy};
use std::alloc::Global;

/// How a URI is fetched.
#[derive(Clone, Copy, Debug, PartialEq, Eq)]
pub enum Scheme {
    Http,
    File,
}

/// A URI of this profile, in parts (RFC 3986).
///
/// For `File` the host is empty and the port is 0. The path is what an origin-form request sends (RFC 9112, section
/// 3.2.1), with a query where a redirect gave one. The readers give sound URIs, on which every call that takes one may
/// rely.
#[derive(Debug, Drop)]
pub struct Uri {
    pub scheme: Scheme,
    pub host: Text,
    pub port: u16,
    pub path: Text,
}

impl PartialEq for Uri {
    ghost use Rattle.acq_base.specs.Uri.{same_uri};
    ghost use Rattle.std.specs.Cmp.Rules.{comparing};
    ghost use Rattle.std.proofs.Common.{rules};

    ghost eq = { same_uri };

    ghost laws = { Prim.search (comparing, rules) };

    fn eq(&self, other: &Uri) -> bool {
        self.scheme == other.scheme
            && self.host == other.host
            && self.port == other.port
            && self.path == other.path
    }
}

/// The name of a file in the lists folder.
#[derive(Debug, PartialEq, Eq, PartialOrd, Ord, Drop)]
pub struct ListName(pub Text);

impl TryCopy for Uri {
    fn copy(&self, alloc: Global) -> Result<Uri, NoMemory> {
        Ok(Uri {
            scheme: self.scheme,
            host: self.host.copy(alloc)?,
            port: self.port,
            path: self.path.copy(alloc)?,
        })
    }
}

impl TryCopy for ListName {
    fn copy(&self, alloc: Global) -> Result<ListName, NoMemory> {
        Ok(ListName(self.0.copy(alloc)?))
    }
}
