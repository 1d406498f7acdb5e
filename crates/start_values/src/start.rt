//! What a program makes of the words and variables that it was started with.
ghost use Rattle.std.specs.Prelude.{◌≡◌, ◌≤◌, codes, drop, map, string_bytes, All, IsUtf8, IfOk, IfSome, IfErr, OnOk, option_map};
ghost use Rattle.start_values.specs.Environment.{Known};
ghost use Rattle.start_values.specs.Start.{ForStart, IsFolderRefusal, IsRefusal, IsWordsRefusal, NamesFolder, NamesFolders, SaysLanes, etc_of, folder_of, known_lanes, lanes_of, lists_of, place_of};

use crate::{Environment, Refused, Unread};
use std::alloc::Global;

/// How many workers may fetch where nothing else is asked for.
const LANES: u8 = 4;

/// What a program goes by.
#[derive(Debug, Drop)]
pub struct Start {
    /// The words behind the program's own name.
    pub words: Vec<String>,
    /// The path of the configuration folder.
    pub etc: String,
    /// The path of the lists folder.
    pub lists: String,
}

/// Reads what a program goes by. A folder whose variable isn't set is the usual one, and one that is set and empty is
/// refused.
///
/// A word that isn't UTF-8 is refused before any variable is looked at.
#[tactic(auto, using(crate::proofs::Refusals::refusal))]
pub fn read_start<E: Environment>(alloc: Global, environment: &E) -> Result<Start, Refused>
    ensures text { IfSome (E.known environment.now) (λ known. OnOk result (All IsUtf8 known.words)) }
    ensures folders { IfSome (E.known environment.now) (λ known. OnOk result (NamesFolders known)) }
    ensures refused { IfSome (E.known environment.now) (λ known. IfErr result (IsRefusal known)) }
    ensures words { ForStart (E.known environment.now) result (λ known start. map string_bytes start.words.items ≡ drop 1 known.words) }
    ensures etc { ForStart (E.known environment.now) result (λ known start. string_bytes start.etc ≡ etc_of known) }
    ensures lists { ForStart (E.known environment.now) result (λ known start. string_bytes start.lists ≡ lists_of known) }
{
    let words = read_words(alloc, environment)?;
    let etc = read_folder(alloc, environment, "ACQUIRE_ETC", "/etc/apt")?;
    let lists = read_folder(alloc, environment, "ACQUIRE_LISTS", "/var/lib/apt/lists")?;
    Ok(Start { words, etc, lists })
}

/// The path of the folder for package files, that of `ACQUIRE_PLACE`: where it isn't set, the folder that the process
/// works in. It is read apart from the others, so that its value refuses no command that puts no file there.
pub fn read_place<E: Environment>(alloc: Global, environment: &E) -> Result<String, Refused>
    ensures place { IfSome (E.known environment.now) (λ known. IfOk result (λ place. string_bytes place ≡ place_of known)) }
    ensures named { IfSome (E.known environment.now) (λ known. OnOk result (NamesFolder (known.value (codes "ACQUIRE_PLACE")))) }
    ensures refused { IfSome (E.known environment.now) (λ known. IfErr result (IsFolderRefusal (known.value (codes "ACQUIRE_PLACE")))) }
{
    read_folder(alloc, environment, "ACQUIRE_PLACE", ".")
}

/// The words behind the program's own name.
fn read_words<E: Environment>(alloc: Global, environment: &E) -> Result<Vec<String>, Refused>
    ensures words { IfSome (E.known environment.now) (λ known. IfOk result (λ words. map string_bytes words.items ≡ drop 1 known.words)) }
    ensures text { IfSome (E.known environment.now) (λ known. OnOk result (All IsUtf8 known.words)) }
    ensures refused { IfSome (E.known environment.now) (λ known. IfErr result (IsWordsRefusal known)) }
{
    match environment.words(alloc) {
        Ok(mut words) => {
            drop_first(&mut words);
            Ok(words)
        }
        Err(Unread::NotText) => Err(Refused::Words),
        Err(Unread::NoMemory) => Err(Refused::NoMemory),
    }
}

/// Drops the first of some words, if there is one.
fn drop_first(words: &mut Vec<String>)
    ensures { words.new.items ≡ drop 1 words.old.items }
{
    if !words.is_empty() {
        words.remove(0);
    }
}

/// The folder that a variable names, or the usual one.
#[tactic(auto, using(crate::proofs::Folders::folder))]
fn read_folder<E: Environment>(
    alloc: Global,
    environment: &E,
    name: &str,
    usual: &str,
) -> Result<String, Refused>
    ensures folder { IfSome (E.known environment.now) (λ known. IfOk result (λ folder. string_bytes folder ≡ folder_of usual.now (known.value name.now))) }
    ensures named { IfSome (E.known environment.now) (λ known. OnOk result (NamesFolder (known.value name.now))) }
    ensures refused { IfSome (E.known environment.now) (λ known. IfErr result (IsFolderRefusal (known.value name.now))) }
{
    match environment.variable(alloc, name) {
        Ok(found) => folder_or(alloc, found, usual),
        Err(Unread::NotText) => Err(Refused::Environment),
        Err(Unread::NoMemory) => Err(Refused::NoMemory),
    }
}

/// The folder that was found, or the usual one where none was. An empty one is refused.
#[tactic(auto, using(crate::proofs::Folders::folder))]
fn folder_or(alloc: Global, found: Option<String>, usual: &str) -> Result<String, Refused>
    ensures folder { IfOk result (λ folder. string_bytes folder ≡ folder_of usual.now (option_map string_bytes found)) }
    ensures named { OnOk result (NamesFolder (option_map string_bytes found)) }
    ensures refused { IfErr result (IsFolderRefusal (option_map string_bytes found)) }
{
    match found {
        Some(folder) if folder.is_empty() => Err(Refused::Environment),
        Some(folder) => Ok(folder),
        None => match String::from_str(alloc, usual) {
            Ok(folder) => Ok(folder),
            Err(_) => Err(Refused::NoMemory),
        },
    }
}

/// How many workers may fetch beside the program itself: as many as `ACQUIRE_LANES` says by one digit from 0 to 8, and 4 where
/// it says anything else or isn't set.
pub fn read_lanes<E: Environment>(alloc: Global, environment: &E) -> Result<u8, Refused>
    ensures lanes { IfSome (E.known environment.now) (λ known. IfOk result (λ lanes. lanes ≡ known_lanes known)) }
    ensures few { IfOk result (λ lanes. lanes ≤ 8) }
    ensures memory { IfErr result (λ refused. refused ≡ Refused.NoMemory) }
{
    lanes_or_usual(environment.variable(alloc, "ACQUIRE_LANES"))
}

/// The number of lanes that the answer for a variable says. What isn't UTF-8 counts as any other text.
#[tactic(auto, using(crate::proofs::Lanes::lanes_of_no_text))]
fn lanes_or_usual(found: Result<Option<String>, Unread>) -> Result<u8, Refused>
    ensures lanes { IfOk result (λ lanes. SaysLanes found lanes) }
    ensures few { IfOk result (λ lanes. lanes ≤ 8) }
    ensures memory { IfErr result (λ refused. refused ≡ Refused.NoMemory) }
{
    match found {
        Ok(Some(text)) => Ok(lanes_of(text.as_str())),
        Ok(None) => Ok(LANES),
        Err(Unread::NotText) => Ok(LANES),
        Err(Unread::NoMemory) => Err(Refused::NoMemory),
    }
}

/// The number of lanes that a text says.
fn lanes_of(text: &str) -> u8
    ensures value { result ≡ lanes_of text.now }
    ensures few { result ≤ 8 }
{
    match text.as_bytes() {
        [digit] if b'0' <= *digit && *digit <= b'8' => *digit - b'0',
        _ => LANES,
    }
}
