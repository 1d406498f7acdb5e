//! What holds of lanes over whole runs, whatever is called.

ghost use Rattle.host_queues.specs.Laws as law;

/// Hosts get the lanes in turn, in the order in which they are first seen, and keep them. What is put into a lane is
/// handed out of it in that order, and one at a time: the next one comes only once the lane is freed.
pub fn lanes_are_queues()
    ensures turns { law.HostsTakeTurns }
    ensures kept { law.HostsKeepLanes }
    ensures order { law.LanesKeepOrder }
    ensures one { law.OneIsOut }
{}
