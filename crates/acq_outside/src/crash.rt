//! What a crash leaves of a disk, as laws that callers may rest on. It touches nothing.
ghost use Rattle.acq_outside.specs.Choice.{ChoicesLeave};
ghost use Rattle.acq_outside.specs.Crash.{State, IsImage, IsSound, reads};
ghost use Rattle.acq_outside.specs.States.{SyncLasts, NamesLast, SyncsShrink, LeavesApart, LeavesAsDone, MayBeLost, LeavesWithin};

/// What reads give may be left by a crash, and in nothing that a crash leaves do two names lead to one file.
pub fn crash_leaves()
    ensures reads { (s : State) → IsSound s → IsImage s (reads s) }
    ensures apart { (s : State) → IsSound s → LeavesApart s }
{}

/// What a sync buys: a crash leaves of a synced file what reads give, loses no change of synced names, and after either
/// leaves nothing that it couldn't leave before.
pub fn syncs_last()
    ensures file { (s : State) → IsSound s → SyncLasts s }
    ensures names { (s : State) → NamesLast s }
    ensures shrink { (s : State) → IsSound s → SyncsShrink s }
{}

/// A crash leaves of a call that failed in its midst what it may leave of the call that is done.
pub fn torn_is_done()
    ensures { (done : State) → LeavesAsDone done }
{}

/// The choices by which a crash may be tried leave what a crash may leave: all of that, and nothing else.
pub fn choices_leave()
    ensures { (s : State) → IsSound s → ChoicesLeave s }
{}

/// A call that is no sync may be lost: what a crash may leave before it, it may leave after it. So in the midst of such a
/// call a crash leaves what it may leave once it is done, and in the midst of a sync what it may leave before.
pub fn calls_may_be_lost()
    ensures lost { (s : State) → MayBeLost s }
    ensures within { (s : State) → IsSound s → LeavesWithin s }
{}
