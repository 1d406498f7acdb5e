//! The text of one file of the configuration folder. It reads that file once, and may take memory.

ghost use Rattle.std.specs.Prelude.{◌≡◌, ◌++◌, [], IfOk, IfErr, IfSome, take, unwrap_or};
ghost use Rattle.acq_outside.specs.Looks.{LooksCounting};
ghost use Rattle.configuration.specs.Answers.{IsOutside};
ghost use Rattle.configuration.specs.Folder.{text_at};

use crate::ConfigurationError;
use acq_base::{Bytes, NoMemory, Row, Text, TryCopy};
use acq_outside::{Etc, Place};
use std::alloc::Global;

/// Where a file lies, and what it is called.
#[derive(Drop)]
pub struct File {
    pub place: Place,
    /// Its name in its folder, empty for the two single files.
    pub name: Text,
    /// What a refusal calls it.
    pub label: Text,
}

/// One of the two single files.
pub fn single(alloc: Global, place: Place, label: &[u8]) -> Result<File, NoMemory>
    ensures place { IfOk result (λ file. (file.place ≡ place) × (file.name ≡ [])) }
    ensures label { IfOk result (λ file. file.label ≡ label.now) }
{
    Ok(File {
        place,
        name: Text::new(alloc),
        label: Text::from_bytes(alloc, label)?,
    })
}

/// A file of this name in a folder.
pub fn part(alloc: Global, place: Place, folder: &[u8], name: &Text) -> Result<File, NoMemory>
    ensures place { IfOk result (λ file. (file.place ≡ place) × (file.name ≡ name.now)) }
    ensures label { IfOk result (λ file. file.label ≡ folder.now ++ name.now) }
{
    let mut label = Text::from_bytes(alloc, folder)?;
    label.append(name.as_bytes())?;
    Ok(File {
        place,
        name: name.copy(alloc)?,
        label,
    })
}

/// The text of a file, at most its first 1,048,577 bytes, which is one more than a configuration file may have. It is
/// empty where there is no such file.
pub fn read_text<E: Etc>(
    alloc: Global,
    etc: &mut E,
    file: &File,
) -> Result<Bytes, ConfigurationError>
    ensures frame { LooksCounting ConfigurationError.Fault E.Etc etc.old etc.new result }
    ensures told { IfSome (E.files etc.old) (λ files. IfOk result (λ text. text ≡ take 1048577 (text_at files file.now.place file.now.name))) }
    ensures outside { IfErr result IsOutside }
{
    let bytes = etc.read(alloc, file.place, &file.name)?;
    Ok(or_empty(alloc, bytes))
}

/// The bytes, if there are any.
fn or_empty(alloc: Global, bytes: Option<Bytes>) -> Bytes
    ensures { result ≡ unwrap_or bytes [] }
{
    match bytes {
        Some(bytes) => bytes,
        None => Row::new(alloc),
    }
}
