use arbiters::*;

#[test]
fn round_robin_goes_on_after_the_last_grant(rt: HostRuntime) {
    let mut flows = FlowSet::new();
    flows.insert(0);
    flows.insert(5);
    let mut arbiter = RoundRobin::new();
    assert_eq!(rt; arbiter.pick(319, &flows), Some(0));
    arbiter.grant(319, 0);
    assert_eq!(rt; arbiter.pick(319, &flows), Some(5));
    arbiter.grant(319, 5);
    assert_eq!(rt; arbiter.pick(319, &flows), Some(0));
}

#[test]
fn the_flow_just_granted_comes_last(rt: HostRuntime) {
    let mut flows = FlowSet::new();
    flows.insert(0);
    flows.insert(1);
    let mut arbiter = LeastRecentlyGranted::new();
    assert_eq!(rt; arbiter.pick(0, &flows), Some(0));
    arbiter.grant(0, 0);
    assert_eq!(rt; arbiter.pick(0, &flows), Some(1));
    arbiter.grant(0, 1);
    assert_eq!(rt; arbiter.pick(0, &flows), Some(0));
}

#[test]
fn unknown_channels_and_flows_are_ignored(rt: HostRuntime) {
    let mut flows = FlowSet::new();
    flows.insert(64);
    let mut arbiter = LeastRecentlyGranted::new();
    assert_eq!(rt; arbiter.pick(0, &flows), None);
    flows.insert(63);
    assert_eq!(rt; arbiter.pick(320, &flows), None);
    arbiter.grant(320, 63);
    arbiter.grant(0, 64);
    assert_eq!(rt; arbiter.pick(0, &flows), Some(63));
}
