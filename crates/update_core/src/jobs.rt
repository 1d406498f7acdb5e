//! The jobs that are out, by lane.

ghost use Rattle.std.specs.Prelude.{◌≡◌, Some, None};
ghost use Rattle.board_model.specs.Boards as model;
ghost use Rattle.host_queues.specs.Lanes.{changed_at};

/// The lane from which a job is out.
pub fn lane_with(out: &[Option<u64>], number: u64) -> Option<usize>
    ensures { result ≡ model.lane_with out.now number }
{
    for lane in 0..out.len() {
        if is_out_as(out[lane], number) {
            return Some(lane);
        }
    }
    None
}

/// Whether this is the job that is out.
fn is_out_as(out: Option<u64>, number: u64) -> bool
    ensures { result ≡ model.is_out_as number out }
{
    match out {
        Some(other) => other == number,
        None => false,
    }
}

/// A lane has this job out, if the lane is there.
pub fn put_out(out: &mut Vec<Option<u64>>, lane: u32, number: u64)
    ensures { out.new.items ≡ changed_at lane (λ o. Some number) out.old.items }
{
    let lane = lane as usize;
    if lane < out.len() {
        out[lane] = Some(number);
    }
}

/// A lane has no job out.
pub fn take_back(out: &mut Vec<Option<u64>>, lane: usize)
    ensures { out.new.items ≡ changed_at lane (λ o. None) out.old.items }
{
    if lane < out.len() {
        out[lane] = None;
    }
}
