//! The settings, each with its key and its default. It may take memory, and touches nothing else.

ghost use Rattle.std.specs.Prelude.{◌≡◌, ◌⊎◌, ◌≤◌, ◌∷◌, [], Err, IfOk};
ghost use Rattle.acq_base.specs.Settings.{IsSound};
ghost use Rattle.apt_conf.specs.Answers.{Gives};
ghost use Rattle.apt_conf.specs.Settings as of;

use crate::ConfError;
use crate::conf::{Conf, get};
use crate::values::{
    Words, boolean_of, by_hash_of, is_architecture, languages_of, listed, number_of, picked,
};
use acq_base::{ByHash, Dates, NoMemory, Pick, Row, Settings, Text, TryCopy};
use std::alloc::Global;

/// The settings of a configuration: of each key its last value, or its default.
///
/// | Key | Value | Default |
/// |---|---|---|
/// | `APT::Architecture` | one architecture | `amd64` |
/// | `APT::Architectures` | architectures | the one above |
/// | `Acquire::Languages` | languages, or `none` alone | `en` |
/// | `Acquire::Pick` | of `Packages`, `Sources`, `Translations` | all three |
/// | `Acquire::Min-ValidTime`, `Acquire::Max-ValidTime` | 0 to 4294967295 seconds | 0 |
/// | `Acquire::Max-FutureTime` | 0 to 4294967295 seconds | 10 |
/// | `Acquire::Retries` | 0 to 10 | 1 |
/// | `Acquire::By-Hash` | `yes`, `no` or `force` | `yes` |
/// | `Acquire::PDiffs` | boolean | yes |
/// | `Acquire::PDiffs::FileLimit` | 0 to 1000 patches | 100 |
/// | `Acquire::PDiffs::SizeLimit` | 0 to 1000 percent | 100 |
/// | `APT::Get::List-Cleanup` | boolean | yes |
///
/// Blanks and commas separate the words of a list, which has at least one. A boolean is one of the words of apt.conf(5),
/// in any case. The first value in this order that isn't allowed is refused with `BadValue` and its key; the only other
/// error is `NoMemory`.
pub fn settings(alloc: Global, conf: &Conf) -> Result<Settings, ConfError>
    ensures value { (result ≡ Err ConfError.NoMemory) ⊎ (result ≡ of.settings_of conf.now) }
    // Architectures and languages that may become parts of paths, and at least one architecture.
    ensures sound { IfOk result IsSound }
{
    read_settings(alloc, conf)
}

#[tactic(auto, unfolding(crate::specs::Settings::settings_of))]
fn read_settings(alloc: Global, conf: &Conf) -> Result<Settings, ConfError>
    ensures { Gives result (of.settings_of conf.now) }
{
    let lists = wanted_lists(alloc, conf)?;
    let dates = dates(alloc, conf)?;
    let ways = ways_to_fetch(alloc, conf)?;
    let cleanup = read_boolean(alloc, conf, b"APT::Get::List-Cleanup", true)?;
    Ok(Settings {
        arch: lists.arch,
        archs: lists.archs,
        langs: lists.langs,
        pick: lists.pick,
        dates,
        retries: ways.retries,
        by_hash: ways.by_hash,
        pdiffs: ways.pdiffs,
        file_limit: ways.file_limit,
        size_limit: ways.size_limit,
        cleanup,
    })
}

/// The settings that say which lists are wanted.
#[derive(Debug, Drop)]
pub struct Wanted {
    /// The architecture of this machine.
    pub arch: Text,
    /// The architectures whose lists are wanted.
    pub archs: Row<Text>,
    /// The languages whose translations are wanted.
    pub langs: Row<Text>,
    /// The kinds of lists that are wanted.
    pub pick: Pick,
}

#[tactic(auto, unfolding(crate::specs::Settings::wanted))]
fn wanted_lists(alloc: Global, conf: &Conf) -> Result<Wanted, ConfError>
    ensures { Gives result (of.wanted conf.now) }
{
    let arch = architecture(alloc, conf)?;
    let archs = architectures(alloc, conf, &arch)?;
    let langs = languages(alloc, conf)?;
    let pick = pick(alloc, conf)?;
    Ok(Wanted {
        arch,
        archs,
        langs,
        pick,
    })
}

/// The settings that say how lists are fetched.
#[derive(Clone, Copy, Debug)]
pub struct Fetching {
    /// How many times a fetch that failed is tried again.
    pub retries: u32,
    /// Whether lists are fetched by their digests.
    pub by_hash: ByHash,
    /// Whether lists are brought up to date by patches.
    pub pdiffs: bool,
    /// How many patches are taken at most; 0 for no limit.
    pub file_limit: u32,
    /// How long patches are together at most, in percent of the list; 0 for no limit.
    pub size_limit: u32,
}

#[tactic(auto, unfolding(crate::specs::Settings::fetching))]
fn ways_to_fetch(alloc: Global, conf: &Conf) -> Result<Fetching, ConfError>
    ensures { Gives result (of.fetching conf.now) }
{
    let retries = small_number(alloc, conf, b"Acquire::Retries", 10, 1)?;
    let by_hash = by_hash(alloc, conf)?;
    let pdiffs = read_boolean(alloc, conf, b"Acquire::PDiffs", true)?;
    let file_limit = small_number(alloc, conf, b"Acquire::PDiffs::FileLimit", 1000, 100)?;
    let size_limit = small_number(alloc, conf, b"Acquire::PDiffs::SizeLimit", 1000, 100)?;
    Ok(Fetching {
        retries,
        by_hash,
        pdiffs,
        file_limit,
        size_limit,
    })
}

/// What a value reads as, or that it isn't allowed for its key.
fn allowed<T: Drop>(alloc: Global, key: &[u8], value: Option<T>) -> Result<T, ConfError>
    ensures { Gives result (of.allowed key.now value) }
{
    match value {
        Some(value) => Ok(value),
        None => Err(ConfError::BadValue(Text::from_bytes(alloc, key)?)),
    }
}

#[tactic(auto, unfolding(crate::specs::Settings::architecture))]
fn architecture(alloc: Global, conf: &Conf) -> Result<Text, ConfError>
    ensures { Gives result (of.architecture conf.now) }
{
    match get(conf, b"APT::Architecture") {
        None => Ok(Text::from_bytes(alloc, b"amd64")?),
        Some(value) => {
            let value = if is_architecture(value.as_bytes()) {
                Some(value.copy(alloc)?)
            } else {
                None
            };
            allowed(alloc, b"APT::Architecture", value)
        }
    }
}

/// The row of one text.
fn row_of(alloc: Global, text: &[u8]) -> Result<Row<Text>, NoMemory>
    ensures { IfOk result (λ row. row ≡ text.now ∷ []) }
{
    let mut row = Row::new(alloc);
    row.push(Text::from_bytes(alloc, text)?)?;
    Ok(row)
}

#[tactic(auto, unfolding(crate::specs::Settings::architectures))]
fn architectures(alloc: Global, conf: &Conf, own: &Text) -> Result<Row<Text>, ConfError>
    ensures { Gives result (of.architectures own.now conf.now) }
{
    match get(conf, b"APT::Architectures") {
        None => Ok(row_of(alloc, own.as_bytes())?),
        Some(value) => {
            let found = listed(alloc, Words::Architectures, value.as_bytes())?;
            allowed(alloc, b"APT::Architectures", found)
        }
    }
}

#[tactic(auto, unfolding(crate::specs::Settings::languages))]
fn languages(alloc: Global, conf: &Conf) -> Result<Row<Text>, ConfError>
    ensures { Gives result (of.languages conf.now) }
{
    match get(conf, b"Acquire::Languages") {
        None => Ok(row_of(alloc, b"en")?),
        Some(value) => {
            let found = listed(alloc, Words::Languages, value.as_bytes())?;
            allowed(alloc, b"Acquire::Languages", languages_of(alloc, found))
        }
    }
}

#[tactic(auto, unfolding(crate::specs::Settings::pick))]
fn pick(alloc: Global, conf: &Conf) -> Result<Pick, ConfError>
    ensures { Gives result (of.pick conf.now) }
{
    match get(conf, b"Acquire::Pick") {
        None => Ok(Pick {
            packages: true,
            sources: true,
            translations: true,
        }),
        Some(value) => {
            let found = listed(alloc, Words::Kinds, value.as_bytes())?;
            allowed(
                alloc,
                b"Acquire::Pick",
                found.map(|found| picked(found.as_slice())),
            )
        }
    }
}

#[tactic(auto, unfolding(crate::specs::Settings::dates))]
fn dates(alloc: Global, conf: &Conf) -> Result<Dates, ConfError>
    ensures { Gives result (of.dates conf.now) }
{
    let min = number(alloc, conf, b"Acquire::Min-ValidTime", 4294967295, 0)?;
    let max = number(alloc, conf, b"Acquire::Max-ValidTime", 4294967295, 0)?;
    let future = number(alloc, conf, b"Acquire::Max-FutureTime", 4294967295, 10)?;
    Ok(Dates { min, max, future })
}

#[tactic(auto, unfolding(crate::specs::Settings::number))]
fn number(alloc: Global, conf: &Conf, key: &[u8], most: u64, default: u64) -> Result<u64, ConfError>
    requires { default ≤ most }
    ensures read { Gives result (of.number most default conf.now key.now) }
    ensures bound { IfOk result (λ number. number ≤ most) }
{
    match get(conf, key) {
        None => Ok(default),
        Some(value) => allowed(alloc, key, number_of(most, value.as_bytes())),
    }
}

fn small_number(
    alloc: Global,
    conf: &Conf,
    key: &[u8],
    most: u32,
    default: u32,
) -> Result<u32, ConfError>
    requires { default ≤ most }
    ensures { Gives result (of.number most default conf.now key.now) }
{
    let number = number(alloc, conf, key, u64::from(most), u64::from(default))?;
    Ok(number as u32)
}

#[tactic(auto, unfolding(crate::specs::Settings::by_hash))]
fn by_hash(alloc: Global, conf: &Conf) -> Result<ByHash, ConfError>
    ensures { Gives result (of.by_hash conf.now) }
{
    match get(conf, b"Acquire::By-Hash") {
        None => Ok(ByHash::Yes),
        Some(value) => allowed(alloc, b"Acquire::By-Hash", by_hash_of(value.as_bytes())),
    }
}

/// The boolean that a configuration gives to a key last, or the default where it gives none (apt.conf(5)). A value that is no
/// boolean is refused with `BadValue` and the key; the only other error is `NoMemory`.
pub fn boolean(alloc: Global, conf: &Conf, key: &[u8], default: bool) -> Result<bool, ConfError>
    ensures { (result ≡ Err ConfError.NoMemory) ⊎ (result ≡ of.boolean default conf.now key.now) }
{
    read_boolean(alloc, conf, key, default)
}

#[tactic(auto, unfolding(crate::specs::Settings::boolean))]
fn read_boolean(alloc: Global, conf: &Conf, key: &[u8], default: bool) -> Result<bool, ConfError>
    ensures { Gives result (of.boolean default conf.now key.now) }
{
    match get(conf, key) {
        None => Ok(default),
        Some(value) => allowed(alloc, key, boolean_of(value.as_bytes())),
    }
}
