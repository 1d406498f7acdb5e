//! Sends what is pending of a response.
ghost use Rattle.std.specs.Prelude.{◌≡◌, ◌≤◌, ◌<◌, ◌+◌, ◌^◌, ◌++◌, length, take, drop, IfOk, IfSome, OnErr};
ghost use Rattle.acq_outside.specs.Frame.{LooksBy};
ghost use Rattle.tree_serve.specs.Planned.{InRange, IsWithin};
ghost use Rattle.tree_serve.specs.Sending.{IsPartRead};
ghost use Rattle.tree_serve.specs.Texts.{content_at};
ghost use Rattle.served_link.specs.Link.{IsInRange, PendingWithin};
ghost use Rattle.served_link.specs.Sending.{Sends, SendsOn};

use crate::pending::Pending;
use acq_base::Text;
use acq_outside::{Fault, Tree};

/// Sends bytes of the head.
fn send_head(p: &mut Pending, out: &mut [u8]) -> usize
    requires some { p.old.done < length p.old.planned.head }
    requires room { 0 < length out.old }
    ensures some { 0 < result }
    ensures within { result ≤ length out.old }
    ensures room { length out.new ≡ length out.old }
    ensures sent { drop p.old.done p.old.planned.head ≡ take result out.new ++ drop p.new.done p.old.planned.head }
    ensures planned { p.new.planned ≡ p.old.planned }
{
    let (_, rest) = p.planned.head.as_slice().split_at(p.done);
    let n = rest.len().min(out.len());
    let (front, _) = rest.split_at(n);
    let (to, _) = out.split_at_mut(n);
    to.copy_from_slice(front);
    p.done += n;
    n
}

/// Reads the next bytes of a file into the front of `out`, at most `most`, and answers how many these are.
fn read_some<T: Tree>(
    tree: &mut T,
    path: &Text,
    at: u64,
    most: u64,
    out: &mut [u8],
) -> Result<usize, Fault>
    requires some { 0 < most }
    requires room { 0 < length out.old }
    ensures frame { LooksBy T.faults T.files tree.old tree.new result }
    ensures room { length out.new ≡ length out.old }
    ensures within { IfOk result (λ n. n ≤ length out.old) }
    ensures few { IfOk result (λ n. n ≤ most) }
    ensures told { IfSome (T.files tree.old) (λ files. IfOk result (IsPartRead (content_at files path.now) at out.new)) }
{
    let space = out.len() as u64;
    let n = if most < space {
        most as usize
    } else {
        out.len()
    };
    let (front, _) = out.split_at_mut(n);
    tree.read_at(path, at, front)
}

/// Sends bytes of the file.
fn send_file<T: Tree>(tree: &mut T, p: &mut Pending, out: &mut [u8]) -> Result<usize, Fault>
    requires some { 0 < p.old.planned.left }
    requires range { InRange p.old.planned }
    requires within { IfSome (T.files tree.old) (λ files. IsWithin files p.old.planned) }
    requires sent { length p.old.planned.head ≤ p.old.done }
    requires room { 0 < length out.old }
    ensures frame { LooksBy T.faults T.files tree.old tree.new result }
    ensures room { length out.new ≡ length out.old }
    ensures few { IfOk result (λ n. n ≤ length out.old) }
    ensures range { InRange p.new.planned }
    ensures failed { OnErr result (p.new ≡ p.old) }
    ensures told { IfSome (T.files tree.old) (λ files. IfOk result (λ n. SendsOn files (take n out.new) p.old p.new)) }
{
    let n = read_some(tree, &p.planned.path, p.planned.at, p.planned.left, out)?;
    p.planned.at += n as u64;
    p.planned.left -= n as u64;
    Ok(n)
}

/// Sends bytes of what is pending, and none where nothing is.
pub fn send_on<T: Tree>(
    tree: &mut T,
    pending: &mut Option<Pending>,
    out: &mut [u8],
) -> Result<usize, Fault>
    requires range { IsInRange pending.old }
    requires within { IfSome (T.files tree.old) (λ files. PendingWithin files pending.old) }
    requires room { 0 < length out.old }
    ensures frame { LooksBy T.faults T.files tree.old tree.new result }
    ensures room { length out.new ≡ length out.old }
    ensures few { IfOk result (λ n. n ≤ length out.old) }
    ensures range { IsInRange pending.new }
    ensures within { IfSome (T.files tree.old) (λ files. PendingWithin files pending.new) }
    ensures told { IfSome (T.files tree.old) (λ files. IfOk result (λ n. Sends files (take n out.new) pending.old pending.new)) }
{
    let Some(p) = pending else {
        return Ok(0);
    };
    if p.done < p.planned.head.len() {
        return Ok(send_head(p, out));
    }
    if p.planned.left == 0 {
        return Ok(0);
    }
    send_file(tree, p, out)
}
