ghost use Rattle.std.specs.Prelude.{◌≡◌, ◌<◌};
ghost use Rattle.network.specs.Floors.{net_of};
ghost use Rattle.running.specs.Grants.{grant_at, grants, told_of, arbiter_at};

use crate::fabric::Fabric;
use arbiters::Arbiter;
use running::Grant;

/// What the channel grants: a flow picked among the requesters of the frame that it serves. The arbiter is told. A
/// channel that no flow crosses grants nothing.
fn grant_at<A: Arbiter>(fabric: &Fabric, arbiter: &mut A, channel: u32) -> Option<Grant>
    requires { channel < 320 }
    ensures answer { result ≡ grant_at A.Arbiter (net_of fabric.now.floor) arbiter.old channel }
    ensures state { arbiter.new ≡ told_of A.Arbiter arbiter.old channel (grant_at A.Arbiter (net_of fabric.now.floor) arbiter.old channel) }
{
    if !fabric.is_used(channel) {
        return None;
    }
    let floor = fabric.floor();
    let ahead = floor.served(channel)?;
    let flows = floor.requesters(channel, ahead);
    let flow = arbiter.pick(channel, &flows)?;
    arbiter.grant(channel, flow);
    Some(Grant { ahead, flow })
}

/// What all channels grant, in rising order.
pub(crate) fn grant_all<A: Arbiter>(fabric: &Fabric, arbiter: &mut A) -> [Option<Grant>; 320]
    ensures answer { result ≡ grants A.Arbiter (net_of fabric.now.floor) arbiter.old }
    ensures state { arbiter.new ≡ arbiter_at A.Arbiter (net_of fabric.now.floor) arbiter.old 320 }
{
    let mut grants = [None; 320];
    // A loop, since the arbiter changes from channel to channel.
    for (channel, grant) in grants.iter_mut().enumerate() {
        *grant = grant_at(fabric, arbiter, channel as u32);
    }
    grants
}
