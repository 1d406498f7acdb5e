//! Lists that are read one after another and summed side by side.

ghost use Rattle.std.specs.Prelude.{◌≡◌, ◌+◌, ◌<◌, ◌≤◌, ◌^◌, ◌++◌, All, IfOk, OnOk, IsTrue, get_or, length, map, unwrap_or};
ghost use Rattle.acq_outside.specs.Disk.{IsName};
ghost use Rattle.acq_outside.specs.Stays.{ReadsCounting};
ghost use Rattle.hash_gate.specs.Pieces.{HasSummed, size_so_far};
ghost use Rattle.lists_dir.specs.Summing.{AllStand, AllPend, Each, AllFed, CanFeed, Ends, Fed, file_of};

use crate::present::{Found, find_present, spread};
use crate::summed::Summed;
use crate::summing::Reading;
use acq_base::{ListName, NoMemory, Row};
use acq_outside::{Disk, OutError};
use std::alloc::Global;
use std::collections::VecDeque;
use std::thread::{self, Threads};

/// How many bytes of all lists are held at once.
const HELD: u64 = 12 << 20;

/// How many bytes of a list are read at once at most. A thread's start costs little beside summing them.
const PIECE: u64 = 3 << 20;

/// The files of these names by their sums, in order, and `None` where there is none.
pub(crate) fn sum_all<R: Threads + Sync, D: Disk>(
    rt: &R,
    alloc: Global,
    disk: &mut D,
    names: &[ListName],
    threads: usize,
) -> Result<VecDeque<Option<Summed>>, OutError>
    requires names { All (λ name. IsName name.0) names.now }
    requires threads { 0 < threads }
    ensures frame { ReadsCounting OutError.Fault D.Disk disk.old disk.new result }
    ensures told { IsTrue (D.tells disk.old) → IfOk result (λ sums. sums.items ≡ map (λ name. D.files disk.old name.0) names.now) }
{
    let Found { present, flags } = find_present(alloc, disk, names)?;
    let sums = sum_present(rt, alloc, disk, present.as_slice(), threads)?;
    Ok(spread(alloc, flags.as_slice(), sums)?)
}

/// The same, where a name without a file takes a place among those that are summed side by side too.
fn sum_present<R: Threads + Sync, D: Disk>(
    rt: &R,
    alloc: Global,
    disk: &mut D,
    names: &[ListName],
    threads: usize,
) -> Result<VecDeque<Option<Summed>>, OutError>
    requires names { All (λ name. IsName name.0) names.now }
    requires threads { 0 < threads }
    ensures frame { ReadsCounting OutError.Fault D.Disk disk.old disk.new result }
    ensures told { IsTrue (D.tells disk.old) → IfOk result (λ sums. sums.items ≡ map (λ name. D.files disk.old name.0) names.now) }
{
    let mut sums = VecDeque::new(alloc);
    let mut rest = names;
    while !rest.is_empty() {
        let (batch, later) = rest.split_at(threads.min(rest.len()));
        sum_batch(rt, alloc, disk, batch, threads, &mut sums)?;
        rest = later;
    }
    Ok(sums)
}

/// Adds the files of these names by their sums, all summed side by side.
fn sum_batch<R: Threads + Sync, D: Disk>(
    rt: &R,
    alloc: Global,
    disk: &mut D,
    names: &[ListName],
    threads: usize,
    sums: &mut VecDeque<Option<Summed>>,
) -> Result<(), OutError>
    requires names { All (λ name. IsName name.0) names.now }
    requires threads { 0 < threads }
    ensures frame { ReadsCounting OutError.Fault D.Disk disk.old disk.new result }
    ensures told { IsTrue (D.tells disk.old) → OnOk result (sums.new.items ≡ sums.old.items ++ map (λ name. D.files disk.old name.0) names.now) }
{
    let mut readings = open_all(alloc, disk, names)?.into_vec();
    read_all(rt, disk, names, readings.as_mut_slice(), threads)?;
    end_all(readings, sums)?;
    Ok(())
}

/// The files of these names before their first pieces.
fn open_all<D: Disk>(
    alloc: Global,
    disk: &mut D,
    names: &[ListName],
) -> Result<Row<Reading>, OutError>
    requires { All (λ name. IsName name.0) names.now }
    ensures frame { ReadsCounting OutError.Fault D.Disk disk.old disk.new result }
    ensures len { IfOk result (λ readings. length readings ≡ length names.now) }
    ensures stand { IfOk result (λ readings. AllStand (D.tells disk.old) (D.files disk.old) 0 names.now readings) }
{
    let mut readings = Row::new(alloc);
    for name in names {
        readings.push(Reading::open(alloc, disk, name)?)?;
    }
    Ok(readings)
}

/// Reads and sums all lists to their ends.
fn read_all<R: Threads + Sync, D: Disk>(
    rt: &R,
    disk: &mut D,
    names: &[ListName],
    readings: &mut [Reading],
    threads: usize,
) -> Result<(), OutError>
    requires names { All (λ name. IsName name.0) names.now }
    requires threads { 0 < threads }
    requires len { length readings.old ≡ length names.now }
    requires stand { AllStand (D.tells disk.old) (D.files disk.old) 0 names.now readings.old }
    ensures frame { ReadsCounting OutError.Fault D.Disk disk.old disk.new result }
    ensures ends { OnOk result (Each (λ name reading. Ends (D.tells disk.old) (D.files disk.old name.0) reading) names.now readings.new) }
{
    let longest = longest(readings);
    let piece = piece_for(threads);
    let mut at = 0;
    while at < longest {
        let step = piece.min(longest - at);
        read_step(disk, names, readings, at, step)?;
        feed_all(rt, readings, threads);
        at += step;
    }
    Ok(())
}

/// How many bytes of each list are read at once where so many lists are summed side by side.
fn piece_for(threads: usize) -> u64
    requires { 0 < threads }
    ensures { 0 < result }
{
    PIECE.min(HELD / threads as u64).max(1)
}

/// The largest size of these lists.
fn longest(readings: &[Reading]) -> u64
    ensures { All (λ reading. unwrap_or reading.size 0 ≤ result) readings.now }
{
    let mut longest = 0;
    for reading in readings {
        longest = reading.size.unwrap_or(0).max(longest);
    }
    longest
}

/// Reads the next piece of each list.
fn read_step<D: Disk>(
    disk: &mut D,
    names: &[ListName],
    readings: &mut [Reading],
    at: u64,
    step: u64,
) -> Result<(), OutError>
    requires names { All (λ name. IsName name.0) names.now }
    requires len { length readings.old ≡ length names.now }
    requires end { at + step < 2 ^ 64 }
    requires stand { AllStand (D.tells disk.old) (D.files disk.old) at names.now readings.old }
    ensures frame { ReadsCounting OutError.Fault D.Disk disk.old disk.new result }
    ensures pend { OnOk result (AllPend (D.tells disk.old) (D.files disk.old) (at + step) names.now readings.new) }
{
    for k in 0..names.len() {
        readings[k].read(disk, &names[k], at, step)?;
    }
    Ok(())
}

/// Feeds each piece that was read to its total, in at most so many threads.
fn feed_all<R: Threads + Sync>(rt: &R, readings: &mut [Reading], threads: usize)
    requires threads { 0 < threads }
    requires pend { All CanFeed readings.old }
    ensures { AllFed readings.old readings.new }
{
    thread::for_each_mut(
        rt,
        readings,
        threads,
        &|_, reading: &mut Reading|
            requires { CanFeed reading.now }
            ensures { Fed reading.entry.now reading.exit.now }
        { reading.feed() },
    );
}

/// Adds the files that the lists came to.
fn end_all(readings: Vec<Reading>, sums: &mut VecDeque<Option<Summed>>) -> Result<(), NoMemory>
    requires { All (λ reading. HasSummed reading.total reading.content) readings.items }
    ensures { OnOk result (sums.new.items ≡ sums.old.items ++ map file_of readings.items) }
{
    for reading in readings {
        sums.push_back(reading.end())?;
    }
    Ok(())
}
