use arbiters::*;
use clocks::*;
use lanes::{Buffers, Flit};
use mesh::{Mesh, Node};
use network::{Counts, Ending, Network, RunRefusal};
use plan::{Plan, Settings};
use std::process::Abort;
use std::test::Fail;

/// A plan without flows, with frames of 4 slots.
fn empty_plan(window: u32, depth: u32) -> Result<Plan, Fail> {
    let mut plan = Plan::new();
    plan.set(Settings {
        window,
        frame: 4,
        depth,
    })?;
    Ok(plan)
}

/// Two flows that meet at channel 2.
fn two_flows(rt: &impl Abort) -> Result<Plan, Fail> {
    let mut plan = empty_plan(3, 2)?;
    assert_eq!(rt; plan.reserve(2, 2, &[0, 2]), Ok(0));
    assert_eq!(rt; plan.reserve(2, 1, &[1, 2]), Ok(1));
    Ok(plan)
}

/// Flows 0 and 2 stand at channel 5 at once, flow 1 two cycles later.
fn three_flows(rt: &impl Abort) -> Result<Plan, Fail> {
    let mut plan = empty_plan(2, 2)?;
    assert_eq!(rt; plan.reserve(2, 2, &[5]), Ok(0));
    assert_eq!(rt; plan.reserve(1, 1, &[0, 1, 5]), Ok(1));
    assert_eq!(rt; plan.reserve(1, 1, &[5]), Ok(2));
    Ok(plan)
}

/// One flow of 4 slots over the channels.
fn one_flow(rt: &impl Abort, depth: u32, channels: &[u32]) -> Result<Plan, Fail> {
    let mut plan = empty_plan(2, depth)?;
    assert_eq!(rt; plan.reserve(4, 4, channels), Ok(0));
    Ok(plan)
}

/// Makes a cycle that delivers one flit at most, and answers whether the window shifted and whose flit it was.
fn served<A: Arbiter, C: WindowClock>(
    rt: &impl Abort,
    network: &mut Network<A, C>,
) -> Result<(bool, Option<u32>), Fail> {
    let before = [network.counts(0), network.counts(1), network.counts(2)];
    let (shifted, delivered) = network.cycle()?;
    for (flow, counts) in (0..3u32).zip(&before) {
        if network.counts(flow) != *counts {
            assert_eq!(rt; delivered, 1);
            return Ok((shifted, Some(flow)));
        }
    }
    assert_eq!(rt; delivered, 0);
    Ok((shifted, None))
}

/// The counts of a flow that is there.
fn counted(accepted: u64, delivered: u64, refused: u32) -> Option<Counts> {
    Some(Counts {
        accepted,
        delivered,
        refused,
    })
}

#[test]
fn six_cycles(rt: HostRuntime) -> Result<(), Fail> {
    let (arbiter, clock) = (LeastRecentlyGranted::new(), Barrier::new(1)?);
    let mut network = Network::start(two_flows(&rt)?, arbiter, clock);
    assert_eq!(rt; network.offer(0, 2), Ok(1));
    for frame in [1, 1, 2, 2] {
        assert_eq!(rt; network.offer(1, 1), Ok(frame));
    }
    assert_eq!(rt; network.offer(1, 1), Err(RunRefusal::WindowSpent));
    for (shifted, flow) in [
        (true, None),
        (false, Some(0)),
        (false, Some(1)),
        (false, Some(0)),
        (false, Some(1)),
        (true, Some(1)),
    ] {
        assert_eq!(rt; served(&rt, &mut network)?, (shifted, flow));
    }
    assert_eq!(rt; network.counts(0), counted(2, 2, 0));
    assert_eq!(rt; network.counts(1), counted(4, 3, 1));
    assert_eq!(rt; (network.head_frame(), network.held()), (2, 1));
    assert_eq!(rt; network.cycles(), 6);
    Ok(())
}

#[test]
fn offers_are_refused_in_order(rt: HostRuntime) -> Result<(), Fail> {
    let mut network = Network::start(two_flows(&rt)?, RoundRobin::new(), Barrier::new(1)?);
    for _ in 0..4 {
        assert!(rt; network.offer(1, 1).is_ok());
    }
    for (flow, size, refusal) in [
        (2, 0, RunRefusal::NoSuchFlow),
        (u32::MAX, 1, RunRefusal::NoSuchFlow),
        (0, 3, RunRefusal::PacketSize),
        (1, 0, RunRefusal::PacketSize),
        (1, 2, RunRefusal::PacketSize),
        (1, 1, RunRefusal::WindowSpent),
    ] {
        assert_eq!(rt; network.offer(flow, size), Err(refusal));
    }
    // only the last of them was counted
    assert_eq!(rt; network.counts(0), counted(0, 0, 0));
    assert_eq!(rt; network.counts(1), counted(4, 0, 1));
    assert_eq!(rt; network.held(), 4);
    Ok(())
}

#[test]
fn runs_end_empty_before_spent(rt: HostRuntime) -> Result<(), Fail> {
    let mut network = Network::start(two_flows(&rt)?, RoundRobin::new(), Barrier::new(1)?);
    assert_eq!(rt; network.run(0), (0, Ending::Empty));
    assert_eq!(rt; network.run(9), (0, Ending::Empty));
    assert_eq!(rt; network.offer(0, 2), Ok(1));
    assert_eq!(rt; network.run(0), (0, Ending::Spent));
    assert_eq!(rt; network.run(1), (1, Ending::Spent));
    assert_eq!(rt; network.run(2), (2, Ending::Empty));
    assert_eq!(rt; network.offer(0, 1), Ok(2));
    assert_eq!(rt; network.run(u32::MAX), (2, Ending::Empty));
    assert_eq!(rt; network.cycles(), 5);
    Ok(())
}

#[test]
fn space_freed_in_a_cycle_is_taken_in_the_next(rt: HostRuntime) -> Result<(), Fail> {
    let plan = one_flow(&rt, 1, &[0, 1, 2])?;
    let mut narrow = Network::start(plan, RoundRobin::new(), Barrier::new(1)?);
    assert_eq!(rt; narrow.offer(0, 2), Ok(1));
    for delivered in [0, 0, 1, 0, 1] {
        assert_eq!(rt; narrow.cycle()?.1, delivered);
    }
    let plan = one_flow(&rt, 2, &[0, 1, 2])?;
    let mut wide = Network::start(plan, RoundRobin::new(), Barrier::new(1)?);
    assert_eq!(rt; wide.offer(0, 2), Ok(1));
    assert_eq!(rt; wide.run(9), (4, Ending::Empty));
    Ok(())
}

#[test]
fn arbiters_pick_by_their_own_order(rt: HostRuntime) -> Result<(), Fail> {
    let arbiter = LeastRecentlyGranted::new();
    let mut recent = Network::start(three_flows(&rt)?, arbiter, Barrier::new(64)?);
    let mut round = Network::start(three_flows(&rt)?, RoundRobin::new(), Barrier::new(64)?);
    for (flow, size) in [(0, 2), (1, 1), (2, 1)] {
        assert_eq!(rt; recent.offer(flow, size), Ok(1));
        assert_eq!(rt; round.offer(flow, size), Ok(1));
    }
    // flow 1 comes to the channel in the third cycle: it was never granted, and a round begins again at flow 0
    for (by_recency, by_round) in [(0, 0), (2, 2), (1, 0), (0, 1)] {
        assert_eq!(rt; served(&rt, &mut recent)?, (false, Some(by_recency)));
        assert_eq!(rt; served(&rt, &mut round)?, (false, Some(by_round)));
    }
    assert_eq!(rt; (recent.held(), round.held()), (0, 0));
    Ok(())
}

#[test]
fn an_earlier_frame_goes_first(rt: HostRuntime) -> Result<(), Fail> {
    let mut plan = empty_plan(3, 1)?;
    assert_eq!(rt; plan.reserve(1, 1, &[5]), Ok(0));
    assert_eq!(rt; plan.reserve(2, 2, &[5]), Ok(1));
    let mut network = Network::start(plan, RoundRobin::new(), Barrier::new(64)?);
    assert_eq!(rt; network.offer(0, 1), Ok(1));
    assert_eq!(rt; network.offer(0, 1), Ok(2));
    assert_eq!(rt; network.offer(1, 2), Ok(1));
    // in the third cycle it is flow 0's turn, but its flit belongs to frame 2
    for flow in [0, 1, 1, 0] {
        assert_eq!(rt; served(&rt, &mut network)?, (false, Some(flow)));
    }
    assert_eq!(rt; network.head_frame(), 0);
    Ok(())
}

/// Which of six cycles shift, where a flit of frame 1 is delivered in each of the first four.
fn shifts<C: WindowClock + Drop>(rt: &impl Abort, clock: C) -> Result<[bool; 6], Fail> {
    let mut network = Network::start(one_flow(rt, 1, &[0])?, RoundRobin::new(), clock);
    assert_eq!(rt; network.offer(0, 4), Ok(1));
    let mut shifts = [false; 6];
    for shifted in &mut shifts {
        *shifted = network.cycle()?.0;
    }
    assert_eq!(rt; network.counts(0), counted(4, 4, 0));
    Ok(shifts)
}

#[test]
fn clocks_shift_when_they_say(rt: HostRuntime) -> Result<(), Fail> {
    let barrier = shifts(&rt, Barrier::new(1)?)?;
    let timer = shifts(&rt, Timer::new(2)?)?;
    let sampled = shifts(&rt, Sampled::new(Barrier::new(1)?, 2)?)?;
    // no clock shifts in the fourth cycle: its head frame, frame 1, still has a flit
    assert_eq!(rt; barrier, [true, false, false, false, true, true]);
    assert_eq!(rt; timer, [false, true, false, false, true, false]);
    assert_eq!(rt; sampled, [false, true, false, false, false, true]);
    Ok(())
}

#[test]
fn a_flit_crosses_the_mesh_at_a_hop_a_cycle(rt: HostRuntime) -> Result<(), Fail> {
    let mut channels = [0; 15];
    let corner = Node { x: 0, y: 0 };
    let hops = Mesh::new(8)?.route(corner, Node { x: 7, y: 7 }, &mut channels)?;
    assert_eq!(rt; hops, 15);
    let plan = one_flow(&rt, 1, &channels)?;
    let mut network = Network::start(plan, RoundRobin::new(), Barrier::new(1)?);
    assert_eq!(rt; network.offer(0, 1), Ok(1));
    assert_eq!(rt; network.run(14), (14, Ending::Spent));
    assert_eq!(rt; network.cycle(), Ok((false, 1)));
    assert_eq!(rt; network.held(), 0);
    Ok(())
}

#[test]
fn sixty_four_flows_cross_the_last_channel(rt: HostRuntime) -> Result<(), Fail> {
    let mut plan = Plan::new();
    plan.set(Settings {
        window: 2,
        frame: 64,
        depth: 1,
    })?;
    for flow in 0..64u32 {
        assert_eq!(rt; plan.reserve(1, 1, &[319]), Ok(flow));
    }
    let mut network = Network::start(plan, LeastRecentlyGranted::new(), Barrier::new(1)?);
    assert_eq!(rt; network.flow_count(), 64);
    for flow in 0..64u32 {
        assert_eq!(rt; network.offer(flow, 1), Ok(1));
    }
    assert_eq!(rt; network.offer(64, 1), Err(RunRefusal::NoSuchFlow));
    assert_eq!(rt; network.run(99), (64, Ending::Empty));
    assert!(rt; network.counts(63).is_some());
    assert_eq!(rt; network.counts(64), None);
    Ok(())
}

#[test]
fn an_empty_plan_starts_too(rt: HostRuntime) -> Result<(), Fail> {
    let mut network = Network::start(Plan::new(), RoundRobin::new(), Barrier::new(1)?);
    assert_eq!(rt; network.flow_count(), 0);
    assert_eq!(rt; network.counts(0), None);
    assert_eq!(rt; network.offer(0, 0), Err(RunRefusal::NoSuchFlow));
    assert_eq!(rt; network.cycle(), Ok((true, 0)));
    Ok(())
}

#[test]
fn buffers_at_their_edges(rt: HostRuntime) {
    let mut buffers = Buffers::new(3);
    let flit = Flit {
        flow: 63,
        number: 7,
    };
    assert_eq!(rt; buffers.push(320, 2, flit), Err(flit));
    assert_eq!(rt; buffers.push(319, 3, flit), Err(flit));
    assert_eq!(rt; buffers.push(319, 2, flit), Ok(()));
    for ahead in [2, 1, 0, 2] {
        assert_eq!(rt; buffers.len(319, ahead), 1);
        assert_eq!(rt; buffers.front(319, ahead), Some(flit));
        // frame by frame the flit comes to the head, whose lanes then pass to the frame that opens
        buffers.turn();
    }
    assert_eq!(rt; buffers.pop(319, 1), Some(flit));
    assert_eq!(rt; buffers.pop(319, 1), None);
    assert_eq!(rt; buffers.pop(320, 0), None);
}
