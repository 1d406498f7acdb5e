//! Suites, which may name the machine's architecture.

ghost use Rattle.std.specs.Prelude.{◌≡◌, ◌⊎◌, Err, IfOk};
ghost use Rattle.source_lists.specs.Values as values;

use crate::ListError;
use crate::values::is_path;
use acq_base::{NoMemory, Text};
use std::alloc::Global;

/// The suite that a word of this line is, on a machine of this architecture: `$(ARCH)` is replaced, and slashes at the front
/// are dropped. `BadLine` where that isn't letters, digits and `._-+~:/`, or has a segment `..`.
#[tactic(auto, unfolding(crate::specs::Values::suite_at))]
pub fn suite_at(alloc: Global, arch: &[u8], at: u64, word: &[u8]) -> Result<Text, ListError>
    ensures { (result ≡ Err ListError.NoMemory) ⊎ (result ≡ values.suite_at arch.now at word.now) }
{
    let whole = replaced(alloc, arch, word)?;
    let suite = without_slashes(whole.as_bytes());
    if !is_path(suite) {
        return Err(ListError::BadLine(at));
    }
    Ok(Text::from_bytes(alloc, suite)?)
}

/// The text with the architecture in place of each `$(ARCH)`.
fn replaced(alloc: Global, arch: &[u8], text: &[u8]) -> Result<Text, NoMemory>
    ensures { IfOk result (λ whole. whole ≡ values.replaced arch.now text.now) }
{
    let mut whole = Text::new(alloc);
    let mut rest = text;
    while let [first, after @ ..] = rest {
        match rest.strip_prefix(b"$(ARCH)") {
            Some(behind) => {
                whole.append(arch)?;
                rest = behind;
            }
            None => {
                whole.push(*first)?;
                rest = after;
            }
        }
    }
    Ok(whole)
}

/// The text without the slashes at its front; `/` alone stays.
#[tactic(auto, unfolding(crate::specs::Values::without_slashes))]
fn without_slashes(text: &[u8]) -> &[u8]
    ensures { result.now ≡ values.without_slashes text.now }
{
    let mut rest = text;
    while let [b'/', after @ ..] = rest {
        if after.is_empty() {
            break;
        }
        rest = after;
    }
    rest
}
