//! The packages of a source: how many, and of each its version and its size. It takes memory, and touches nothing else.
ghost use Rattle.std.specs.Prelude.{◌≡◌, ◌≤◌, ◌<◌, IfOk, OnOk, length};
ghost use Rattle.mirror_maker.specs.Draws.{drawn as number, next};
ghost use Rattle.mirror_maker.specs.Packages.{after_source, behind, packages, packages_from};

use crate::draws::Draws;
use acq_base::{NoMemory, Row};
use std::alloc::Global;

/// One package of a list.
#[derive(Clone, Copy, Debug, PartialEq, Eq)]
pub struct Package {
    pub version: u32,
    /// In bytes.
    pub size: u32,
}

/// Draws the packages of a source.
#[tactic(auto, unfolding(crate::specs::Packages::packages_from, crate::specs::Packages::after_source))]
pub fn draw_source(alloc: Global, draws: &mut Draws) -> Result<Row<Package>, NoMemory>
    ensures packages { IfOk result (λ drawn. drawn ≡ packages_from draws.old.state) }
    ensures state { OnOk result (draws.new.state ≡ after_source draws.old.state) }
    ensures few { IfOk result (λ drawn. length drawn < 10000) }
{
    let count = 2000 + draws.below(8000);
    let drawn = draw_packages(alloc, draws, count)?;
    Ok(drawn)
}

/// Draws so many packages.
fn draw_packages(alloc: Global, draws: &mut Draws, count: u32) -> Result<Row<Package>, NoMemory>
    ensures packages { IfOk result (λ drawn. drawn ≡ packages count draws.old.state) }
    ensures state { OnOk result (draws.new.state ≡ behind count draws.old.state) }
    ensures few { IfOk result (λ drawn. length drawn ≡ count) }
{
    let mut drawn = Row::new(alloc);
    let mut left = count;
    while left > 0 {
        drawn.push(draw_package(draws))?;
        left -= 1;
    }
    Ok(drawn)
}

fn draw_package(draws: &mut Draws) -> Package
    ensures version { result.version ≡ number draws.old.state 1000 }
    ensures size { result.size ≡ number (next draws.old.state) 1000000 }
    ensures state { draws.new.state ≡ next (next draws.old.state) }
{
    let version = draws.below(1000);
    let size = draws.below(1_000_000);
    Package { version, size }
}
