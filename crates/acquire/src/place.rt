//! The folder for package files.
ghost use Rattle.std.specs.Prelude.{◌≡◌, map, string_bytes, IfErr, IfOk, IfSome};
ghost use Rattle.acquire.specs.Carried.{IsPlace, IsPlaceRefusal, is_package};

use start_values::{Environment, Refused, read_place};
use std::alloc::Global;
use std::fs;
use std::io::ErrorKind;
use std::rt::Files;

/// The path of the folder that the environment names for package files. Where the variable names none, only a command that puts a
/// file there is refused.
pub fn place_for<V: Environment>(
    alloc: Global,
    environment: &V,
    words: &[String],
) -> Result<String, Refused>
    ensures place { IfSome (V.known environment.now) (λ known. IfOk result (λ place. IsPlace known (map string_bytes words.now) (string_bytes place))) }
    ensures refused { IfSome (V.known environment.now) (λ known. IfErr result (IsPlaceRefusal known (map string_bytes words.now))) }
{
    if asks_for_package(words) {
        return read_place(alloc, environment);
    }
    match read_place(alloc, environment) {
        Ok(place) => Ok(place),
        Err(_) => usual(alloc),
    }
}

fn usual(alloc: Global) -> Result<String, Refused>
    ensures { IfErr result (λ refused. refused ≡ Refused.NoMemory) }
{
    match String::from_str(alloc, ".") {
        Ok(place) => Ok(place),
        Err(_) => Err(Refused::NoMemory),
    }
}

/// Whether the first word is that of the command which puts a file there.
fn asks_for_package(words: &[String]) -> bool
    ensures { result ≡ is_package (map string_bytes words.now) }
{
    match words {
        [command, ..] => command.as_str() == "download",
        [] => false,
    }
}

/// The path of `partial` below the folder for package files, where the words put a file there and nothing stands at that path
/// yet. Where memory runs out there is none, and the folder stays.
pub fn partial_to_make<R: Files>(
    alloc: Global,
    rt: &R,
    place: &str,
    words: &[String],
) -> Option<String> {
    if !asks_for_package(words) {
        return None;
    }
    let path = format!(in alloc; "{place}/partial").ok()?;
    match fs::symlink_metadata(rt, path.as_str()) {
        Err(error) if error.kind() == ErrorKind::NotFound => Some(path),
        _ => None,
    }
}

/// Removes a folder again that was made on the way, if it is there and empty.
pub fn remove_made<R: Files>(rt: &R, path: Option<String>) {
    if let Some(path) = path {
        let _left = fs::remove_dir(rt, path.as_str());
    }
}
