//! Words and variables in memory.
ghost use Rattle.std.specs.Prelude.{◌≡◌, option_copied};
ghost use Rattle.start_values.specs.Environment.{IsWords};
ghost use Rattle.start_values.specs.MemEnvironment.{IsText, known_by, value_in};

use crate::{Environment, Unread};
use acq_base::{Row, Text};
use std::alloc::Global;

/// Words and variables that are given. It tells them.
#[derive(Drop)]
pub struct MemEnvironment {
    words: Row<Text>,
    variables: Row<(Text, Text)>,
}

impl MemEnvironment {
    /// What a process was started with that has these words, the program's own name first, and these variables, each a
    /// name and a value. Of two variables of one name the first counts.
    pub fn new(words: Row<Text>, variables: Row<(Text, Text)>) -> MemEnvironment
        ensures words { (known_by result).words ≡ words }
        ensures variables { (known_by result).value ≡ value_in variables }
    {
        MemEnvironment { words, variables }
    }
}

impl Environment for MemEnvironment {
    ghost use Rattle.std.specs.Prelude.{Some};

    ghost known = { λ environment. Some (known_by environment) };

    fn words(&self, alloc: Global) -> Result<Vec<String>, Unread> {
        texts_of(alloc, self.words.as_slice())
    }

    fn variable(&self, alloc: Global, name: &str) -> Result<Option<String>, Unread> {
        match find(self.variables.as_slice(), name.as_bytes()) {
            Some(value) => Ok(Some(text_of(alloc, value.as_bytes())?)),
            None => Ok(None),
        }
    }
}

/// The words as texts.
fn texts_of(alloc: Global, words: &[Text]) -> Result<Vec<String>, Unread>
    ensures { IsWords words.now result }
{
    let mut texts = Vec::new(alloc);
    for word in words {
        match text_of(alloc, word.as_bytes()) {
            Ok(text) => {
                if texts.push(text).is_err() {
                    return Err(Unread::NoMemory);
                }
            }
            Err(unread) => return Err(unread),
        }
    }
    Ok(texts)
}

/// Bytes as a text.
fn text_of(alloc: Global, bytes: &[u8]) -> Result<String, Unread>
    ensures { IsText bytes.now result }
{
    let Ok(text) = str::from_utf8(bytes) else {
        return Err(Unread::NotText);
    };
    match String::from_str(alloc, text) {
        Ok(text) => Ok(text),
        Err(_) => Err(Unread::NoMemory),
    }
}

/// The value of the first variable of this name.
fn find<'a>(variables: &'a [(Text, Text)], name: &[u8]) -> Option<&'a Text>
    ensures { option_copied result ≡ value_in variables.now name.now }
{
    for variable in variables {
        if variable.0.as_bytes() == name {
            return Some(&variable.1);
        }
    }
    None
}
