//! The call, made over the objects of a case.

use crate::objects::{Objects, disk, make_objects};
use crate::steps::{Step, has, words};
use crate::stops::put_stops;
use crate::telling::put_came;
use case_words::{Page, Refused};
use std::sync::Wait;
use std::thread::Threads;
use update_program::program_call;

/// What a call came to.
#[derive(Clone, Copy)]
pub struct Came {
    pub status: u8,
    /// Whether there is a log of a run.
    pub logged: bool,
}

/// Puts what a case comes to.
pub fn put_case<R>(rt: &R, page: &mut Page, steps: &[Step]) -> Result<(), Refused>
where
    R: AllocGlobal + Threads + Wait + Copy + Send + Sync + 'static,
{
    let place = disk(rt.alloc(), steps, b"place", false)?;
    let mut it = make_objects(rt.alloc(), steps, place)?;
    put_call(rt, page, steps, &mut it)
}

/// Puts what a case comes to over these objects, which are lent, so that no exit here lets go of them.
fn put_call<R>(rt: &R, page: &mut Page, steps: &[Step], it: &mut Objects) -> Result<(), Refused>
where
    R: AllocGlobal + Threads + Wait + Copy + Send + Sync + 'static,
{
    let came = call(rt, steps, it)?;
    put_came(rt.alloc(), page, steps, came, it)?;
    if has(steps, b"stop") {
        put_stops(rt, page, steps, it)?;
    }
    Ok(())
}

/// Makes the call that a case asks for.
pub fn call<R>(rt: &R, steps: &[Step], it: &mut Objects) -> Result<Came, Refused>
where
    R: AllocGlobal + Threads + Wait + Copy + Send + Sync + 'static,
{
    let words = words(rt.alloc(), steps, b"word")?;
    called(rt, words.as_slice(), it)
}

/// Makes the call of these words.
fn called<R>(rt: &R, words: &[String], it: &mut Objects) -> Result<Came, Refused>
where
    R: AllocGlobal + Threads + Wait + Copy + Send + Sync + 'static,
{
    if it.methods.is_empty() || it.methods.len() > 9 {
        return Err(Refused::NoCall);
    }
    let ran = program_call(
        rt,
        words,
        &mut it.etc,
        &mut it.disk,
        &mut it.methods,
        &mut it.clock,
        &mut it.out,
        &mut it.aside,
    );
    Ok(Came {
        status: ran.status.0,
        logged: ran.log.is_some(),
    })
}
