//! Files beside another. It may take memory, and touches nothing else.

ghost use Rattle.std.specs.Prelude.{◌≡◌, ◌≤◌, IfOk, List, ℕ, length};
ghost use Rattle.acq_base.specs.Uri.{IsSound, list_name};
ghost use Rattle.by_hash.specs.Beside as spec;

use acq_base::{NoMemory, Text, TryCopy, Uri};
use std::alloc::Global;

/// The URI of another file in the folder of this one: what stands behind the last `/` of its path is replaced by `name`.
pub fn beside(alloc: Global, uri: &Uri, name: &[u8]) -> Result<Uri, NoMemory>
    ensures value { IfOk result (λ other. other ≡ spec.beside uri.now name.now) }
    ensures replaced { IfOk result (λ other. spec.ReplacesLast uri.now.path name.now other.path) }
    ensures sound { IsSound uri.now → length (list_name uri.now) ≤ 240 → spec.IsShortName name.now → IfOk result IsSound }
{
    sibling(alloc, uri, name)
}

fn sibling(alloc: Global, uri: &Uri, name: &[u8]) -> Result<Uri, NoMemory>
    ensures { IfOk result (λ other. other ≡ spec.beside uri.now name.now) }
{
    let mut path = Text::from_bytes(alloc, folder_of(uri.path.as_bytes()))?;
    path.append(name)?;
    Ok(Uri {
        scheme: uri.scheme,
        host: uri.host.copy(alloc)?,
        port: uri.port,
        path,
    })
}

/// The front of a path, up to its last `/` and with it.
fn folder_of(path: &[u8]) -> &[u8]
    ensures { result.now ≡ spec.folder path.now }
{
    let mut front = path;
    while let [rest @ .., last] = front {
        if *last == b'/' {
            return front;
        }
        front = rest;
    }
    front
}
