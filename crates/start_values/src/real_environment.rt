//! The environment that the operating system gives a process.
ghost use Rattle.std.specs.Prelude.{◌≡◌, ◌≢◌};
ghost use Rattle.std.specs.IoError.{error_kind};
ghost use Rattle.start_values.specs.RealEnvironment.{value_of};

use crate::{Environment, Unread};
use std::alloc::Global;
use std::env::VarError;
use std::io::ErrorKind;
use std::rt::Env;
use std::{env, io};

/// The environment of this process. It tells nothing.
#[derive(Drop)]
pub struct RealEnvironment<R: Drop> {
    rt: R,
}

impl<R: Env + AllocGlobal + Drop> RealEnvironment<R> {
    /// The environment of this process.
    pub fn new(rt: R) -> RealEnvironment<R> {
        RealEnvironment { rt }
    }
}

impl<R: Env + AllocGlobal + Drop> Environment for RealEnvironment<R> {
    ghost use Rattle.std.specs.Prelude.{None};

    ghost known = { λ _. None };

    fn words(&self, alloc: Global) -> Result<Vec<String>, Unread> {
        match env::args(&self.rt) {
            Ok(words) => words.collect(alloc).map_err(|_| Unread::NoMemory),
            Err(error) => Err(unread_words(&error)),
        }
    }

    fn variable(&self, _alloc: Global, name: &str) -> Result<Option<String>, Unread> {
        value(env::var(&self.rt, name))
    }
}

/// Why the words can't be had: for want of memory, or else because one isn't UTF-8.
fn unread_words(error: &io::Error) -> Unread
    ensures memory { error_kind error.now ≡ ErrorKind.OutOfMemory → result ≡ Unread.NoMemory }
    ensures text { error_kind error.now ≢ ErrorKind.OutOfMemory → result ≡ Unread.NotText }
{
    if error.kind() == ErrorKind::OutOfMemory {
        Unread::NoMemory
    } else {
        Unread::NotText
    }
}

/// The system's answer for a variable.
fn value(found: Result<String, VarError>) -> Result<Option<String>, Unread>
    ensures { result ≡ value_of found }
{
    match found {
        Ok(value) => Ok(Some(value)),
        Err(VarError::NotPresent) => Ok(None),
        Err(VarError::NotUnicode) => Err(Unread::NotText),
        Err(VarError::OutOfMemory) => Err(Unread::NoMemory),
    }
}
