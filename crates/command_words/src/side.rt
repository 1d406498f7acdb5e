//! Words that ask for something beside updates, each in its place. They may take memory, and touch nothing else.

ghost use Rattle.std.specs.Prelude.{◌≡◌, ◌≤◌, drop, length, map, reverse, string_bytes, IfOk, IfSome};
ghost use Rattle.std.specs.List.{position_or_len, before_first, after_first};
ghost use Rattle.command_words.specs.Side as asked;

use acq_base::{NoMemory, Text, read_digits};
use std::alloc::Global;

/// The most connections that are served.
const CONNECTIONS: u64 = 1_000_000;

/// What words ask for beside updates.
#[derive(Debug, PartialEq, Drop)]
pub enum Side {
    /// `method file` or `method http`: APT's method of that name.
    Method {
        http: bool,
    },
    /// `serve ROOT PORT N`: N connections to PORT are served with the files below ROOT.
    Serve {
        /// It begins with `/` and doesn't end with it.
        root: Text,
        /// 1 to 65,535.
        port: u16,
        /// 1 to 1,000,000.
        connections: u32,
    },
    /// `download NAME=VERSION`: the file of a package, neither of the two empty.
    Download {
        name: Text,
        version: Text,
    },
}

/// What the words of a command line ask for beside updates, the program's own name left out. None where they are none of
/// these words exactly.
#[tactic(auto, unfolding(crate::specs::Side::side_of))]
pub fn read_side(alloc: Global, words: &[String]) -> Result<Option<Side>, NoMemory>
    ensures { IfOk result (λ side. side ≡ asked.side_of (map string_bytes words.now)) }
{
    match words {
        [command, rest @ ..] => side_by(alloc, command.as_str(), rest),
        [] => Ok(None),
    }
}

/// What a command asks for with the words behind it.
fn side_by(alloc: Global, command: &str, words: &[String]) -> Result<Option<Side>, NoMemory>
    ensures { IfOk result (λ side. side ≡ asked.side_by command.now (map string_bytes words.now)) }
{
    match command {
        "method" => Ok(method_of(words)),
        "serve" => serve_of(alloc, words),
        "download" => download_of(alloc, words),
        _ => Ok(None),
    }
}

fn method_of(words: &[String]) -> Option<Side>
    ensures { result ≡ asked.method_of (map string_bytes words.now) }
{
    match words {
        [word] => method_in(word.as_str()),
        _ => None,
    }
}

fn serve_of(alloc: Global, words: &[String]) -> Result<Option<Side>, NoMemory>
    ensures { IfOk result (λ side. side ≡ asked.serve_of (map string_bytes words.now)) }
{
    match words {
        [root, port, connections] => {
            serve_in(alloc, root.as_str(), port.as_str(), connections.as_str())
        }
        _ => Ok(None),
    }
}

fn download_of(alloc: Global, words: &[String]) -> Result<Option<Side>, NoMemory>
    ensures { IfOk result (λ side. side ≡ asked.download_of (map string_bytes words.now)) }
{
    match words {
        [word] => download_in(alloc, word.as_bytes()),
        _ => Ok(None),
    }
}

/// The method of a scheme.
fn method_in(word: &str) -> Option<Side>
    ensures { result ≡ asked.method_in word.now }
{
    match word {
        "file" => Some(Side::Method { http: false }),
        "http" => Some(Side::Method { http: true }),
        _ => None,
    }
}

/// A package and its version.
fn download_in(alloc: Global, word: &[u8]) -> Result<Option<Side>, NoMemory>
    ensures { IfOk result (λ side. side ≡ asked.download_in word.now) }
{
    let (name, version) = parts(word);
    if name.is_empty() || version.is_empty() {
        return Ok(None);
    }
    Ok(Some(Side::Download {
        name: Text::from_bytes(alloc, name)?,
        version: Text::from_bytes(alloc, version)?,
    }))
}

/// What stands before the first `=`, and what stands behind it.
fn parts(word: &[u8]) -> (&[u8], &[u8])
    ensures before { result.0.now ≡ before_first asked.is_equals word.now }
    ensures behind { result.1.now ≡ after_first asked.is_equals word.now }
{
    let (name, rest) = word.split_at(equals_at(word));
    (name, without_first(rest))
}

/// Where the first `=` stands, or the word's length.
fn equals_at(word: &[u8]) -> usize
    ensures place { result ≡ position_or_len asked.is_equals word.now }
    ensures within { result ≤ length word.now }
{
    let mut at = 0;
    while at < word.len() && word[at] != b'=' {
        at += 1;
    }
    at
}

fn without_first(bytes: &[u8]) -> &[u8]
    ensures { result.now ≡ drop 1 bytes.now }
{
    match bytes {
        [_, rest @ ..] => rest,
        [] => bytes,
    }
}

/// A server of the files below a folder.
fn serve_in(
    alloc: Global,
    root: &str,
    port: &str,
    connections: &str,
) -> Result<Option<Side>, NoMemory>
    ensures { IfOk result (λ side. side ≡ asked.serve_in root.now port.now connections.now) }
{
    if !is_root(root.as_bytes()) {
        return Ok(None);
    }
    let Some(port) = number_to(u64::from(u16::MAX), port) else {
        return Ok(None);
    };
    let Some(connections) = number_to(CONNECTIONS, connections) else {
        return Ok(None);
    };
    Ok(Some(Side::Serve {
        root: Text::from_bytes(alloc, root.as_bytes())?,
        port: port as u16,
        connections: connections as u32,
    }))
}

/// Whether a path begins with `/` and doesn't end with it.
fn is_root(path: &[u8]) -> bool
    ensures { result ≡ asked.is_root path.now }
{
    begins_with_slash(path) && !ends_with_slash(path)
}

fn begins_with_slash(path: &[u8]) -> bool
    ensures { result ≡ asked.begins_with_slash path.now }
{
    match path {
        [first, ..] => *first == b'/',
        [] => false,
    }
}

fn ends_with_slash(path: &[u8]) -> bool
    ensures { result ≡ asked.begins_with_slash (reverse path.now) }
{
    match path {
        [.., last] => *last == b'/',
        [] => false,
    }
}

/// The number that decimal digits write, from 1 to `most`.
fn number_to(most: u64, word: &str) -> Option<u64>
    ensures value { result ≡ asked.number_to most word.now }
    ensures most { IfSome result (λ number. number ≤ most) }
{
    match read_digits(word.as_bytes()) {
        Some(number) if 1 <= number && number <= most => Some(number),
        _ => None,
    }
}
