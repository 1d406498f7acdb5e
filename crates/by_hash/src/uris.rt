//! Where a list is asked for. It may take memory, and touches nothing else.

ghost use Rattle.std.specs.Prelude.{◌≡◌, ◌≤◌, All, IfOk, IfSome, length};
ghost use Rattle.acq_base.specs.Uri.{IsSound, list_name};
ghost use Rattle.by_hash.specs.Beside.{IsShortName};
ghost use Rattle.by_hash.specs.Candidates as spec;

use crate::beside;
use acq_base::{ByHash, NoMemory, Row, Source, Sum, Target, Text, TryCopy, Uri};
use std::alloc::Global;

/// The URIs of a list, in the order in which they are asked: the one under its digest first, where there is one, and
/// the list's own last. `said` is whether the Release says that lists may be asked for under their digests.
pub fn candidates(
    alloc: Global,
    source: &Source,
    target: &Target,
    sum: &Sum,
    said: bool,
) -> Result<Row<Uri>, NoMemory>
    ensures value { IfOk result (λ uris. uris ≡ spec.candidates source.now target.now sum.now said) }
    ensures sound { IsSound target.now.uri → length (list_name target.now.uri) ≤ 240 → IfOk result (All IsSound) }
{
    let mut uris = Row::new(alloc);
    if let Some(uri) = by_hash_uri(alloc, source, target, sum, said)? {
        uris.push(uri)?;
    }
    uris.push(target.uri.copy(alloc)?)?;
    Ok(uris)
}

/// The URI of a list under its digest, where it is asked for there: the source forces it, or it allows it and the
/// Release says so. The last segment of the list's path is replaced by `by-hash/SHA256/` and the digest in lower case.
#[tactic(auto, unfolding(crate::specs::Candidates::by_hash_uri))]
pub fn by_hash_uri(
    alloc: Global,
    source: &Source,
    target: &Target,
    sum: &Sum,
    said: bool,
) -> Result<Option<Uri>, NoMemory>
    ensures value { IfOk result (λ uri. uri ≡ spec.by_hash_uri source.now target.now sum.now said) }
    ensures sound { IsSound target.now.uri → length (list_name target.now.uri) ≤ 240 → IfOk result (λ uri. IfSome uri IsSound) }
{
    if !is_asked(source.by_hash, said) {
        return Ok(None);
    }
    let name = by_hash_name(alloc, &sum.sha.0)?;
    Ok(Some(beside(alloc, &target.uri, name.as_bytes())?))
}

/// What stands in place of a list's last segment: a folder, and the digest in lower-case hexadecimal digits.
fn by_hash_name(alloc: Global, digest: &[u8]) -> Result<Text, NoMemory>
    requires { length digest.now ≡ 32 }
    ensures value { IfOk result (λ name. name ≡ spec.by_hash_name digest.now) }
    ensures short { IfOk result IsShortName }
{
    let mut name = Text::from_bytes(alloc, b"by-hash/SHA256/")?;
    name.append(hex::encode(alloc, digest)?.as_bytes())?;
    Ok(name)
}

/// Whether a list is asked for under its digest.
fn is_asked(by_hash: ByHash, said: bool) -> bool
    ensures { result ≡ spec.is_asked by_hash said }
{
    match by_hash {
        ByHash::Force => true,
        ByHash::Yes => said,
        ByHash::No => false,
    }
}
