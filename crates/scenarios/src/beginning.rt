//! The board with which a run over the mirror begins, from what is given.

ghost use Rattle.std.specs.Prelude.{◌≡◌, IfOk};
ghost use Rattle.acq_base.specs.Plan.{IsSound};
ghost use Rattle.update_core.specs.BoardRefinement.{board_of};

use crate::given::Given;
use crate::objects::etc_of;
use crate::refused::Refused;
use acq_base::{Bytes, ListName, NoMemory, Row, Source, Target, Text, TryCopy};
use configuration::{Configured, configure};
use lists_dir::{Installed, Summed};
use std::alloc::Global;
use update_core::Board;

/// How many lanes each board has.
pub const LANES: u32 = 2;

/// What the configuration folder and the options among the words give.
pub fn configured(alloc: Global, given: &Given) -> Result<Configured, Refused>
    ensures { IfOk result (λ configured. IsSound configured.plan) }
{
    let mut etc = etc_of(alloc, given)?;
    let options = options(alloc, given)?;
    match configure(alloc, &mut etc, &options) {
        Ok(configured) => Ok(configured),
        Err(_) => Err(Refused::Configuration),
    }
}

/// The words behind each `-o`.
fn options(alloc: Global, given: &Given) -> Result<Row<Text>, Refused> {
    let mut row = Row::new(alloc);
    let mut is_value = false;
    for word in given.words.as_slice() {
        if is_value {
            row.push(Text::from_bytes(alloc, word.as_bytes())?)?;
        }
        is_value = word.as_str() == "-o";
    }
    Ok(row)
}

/// What is installed of a source, its lists by their sums.
fn installed_of(alloc: Global, given: &Given, source: &Source) -> Result<Installed, Refused> {
    let lists = lists_of(alloc, given, source.targets.as_slice())?;
    let release = given.installed(alloc, &source.release_name.0)?;
    Ok(Installed { release, lists })
}

/// What is installed of these lists.
fn lists_of(
    alloc: Global,
    given: &Given,
    targets: &[Target],
) -> Result<Row<(ListName, Summed)>, Refused> {
    let mut lists = Row::new(alloc);
    for target in targets {
        if let Some(list) = given.disk.get(&target.name.0) {
            lists.push(named(alloc, &target.name, list)?)?;
        }
    }
    Ok(lists)
}

/// A list's sum with its name.
fn named(alloc: Global, name: &ListName, list: &Bytes) -> Result<(ListName, Summed), NoMemory> {
    let name = name.copy(alloc)?;
    Ok((name, Summed::of(alloc, list)))
}

/// What is installed of each of these sources.
fn olds(alloc: Global, given: &Given, sources: &[Source]) -> Result<Row<Installed>, Refused> {
    let mut row = Row::new(alloc);
    for source in sources {
        row.push(installed_of(alloc, given, source)?)?;
    }
    Ok(row)
}

/// The sizes of the lists on their way.
fn parts(alloc: Global, given: &Given) -> Result<Row<(ListName, u64)>, Refused> {
    let mut row = Row::new(alloc);
    for (name, content) in given.disk.iter() {
        if let Some(list) = name.as_bytes().strip_prefix(b"partial/".as_slice()) {
            row.push((
                ListName(Text::from_bytes(alloc, list)?),
                content.len() as u64,
            ))?;
        }
    }
    Ok(row)
}

/// The board before anything is asked.
pub fn begin(alloc: Global, given: &Given, configured: Configured) -> Result<Board, Refused>
    requires { IsSound configured.plan }
    ensures { IfOk result (λ board. (board_of board).config.change ≡ configured.change) }
{
    let old = olds(alloc, given, configured.plan.sources.as_slice())?;
    let parts = parts(alloc, given)?;
    let Configured {
        plan,
        settings,
        change,
    } = configured;
    if old.len() != plan.sources.len() {
        return Err(Refused::Board);
    }
    Ok(Board::new(alloc, plan, old, parts, settings, change, given.now, LANES)?)
}
