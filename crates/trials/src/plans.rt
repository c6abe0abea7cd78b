use plan::{ChannelLoad, Plan, PlanRefusal, Settings};
use routes::RouteRefusal;
use std::test::Fail;

/// A plan with the widest settings but for the frame.
fn plan_of(frame: u32) -> Result<Plan, PlanRefusal> {
    let mut plan = Plan::new();
    plan.set(Settings {
        window: 8,
        frame,
        depth: 8,
    })?;
    Ok(plan)
}

#[test]
fn a_new_plan_is_empty(rt: HostRuntime) {
    let plan = Plan::new();
    assert_eq!(rt;
        plan.settings(),
        Settings {
            window: 2,
            frame: 1,
            depth: 1,
        }
    );
    assert_eq!(rt; plan.flow_count(), 0);
    assert_eq!(rt; plan.sheet().crossings, 0);
    assert_eq!(rt; plan.sheet().busiest, None);
}

#[test]
fn settings_at_their_edges(rt: HostRuntime) {
    let mut plan = Plan::new();
    for (window, frame, depth) in [
        (1, 1, 1),
        (9, 1, 1),
        (2, 0, 1),
        (2, 4097, 1),
        (2, 1, 0),
        (2, 1, 9),
        (u32::MAX, u32::MAX, u32::MAX),
    ] {
        assert_eq!(rt;
            plan.set(Settings {
                window,
                frame,
                depth,
            }),
            Err(PlanRefusal::Settings)
        );
    }
    assert_eq!(rt;
        plan.settings(),
        Settings {
            window: 2,
            frame: 1,
            depth: 1,
        }
    );
    assert_eq!(rt;
        plan.set(Settings {
            window: 2,
            frame: 1,
            depth: 1,
        }),
        Ok(())
    );
    assert_eq!(rt;
        plan.set(Settings {
            window: 8,
            frame: 4096,
            depth: 8,
        }),
        Ok(())
    );
}

#[test]
fn setting_empties_the_plan(rt: HostRuntime) -> Result<(), Fail> {
    let mut plan = plan_of(4)?;
    assert_eq!(rt; plan.reserve(3, 1, &[0, 2]), Ok(0));
    plan.set(Settings {
        window: 2,
        frame: 2,
        depth: 1,
    })?;
    assert_eq!(rt; plan.flow_count(), 0);
    assert_eq!(rt; plan.load(2), 0);
    Ok(())
}

#[test]
fn a_channel_fills_up_to_its_frame(rt: HostRuntime) -> Result<(), Fail> {
    let mut plan = plan_of(4)?;
    assert_eq!(rt; plan.reserve(3, 1, &[1, 5]), Ok(0));
    assert_eq!(rt;
        plan.reserve(2, 1, &[0, 5, 6]),
        Err(PlanRefusal::Overload(5))
    );
    assert_eq!(rt; plan.load(0), 0);
    assert_eq!(rt; plan.reserve(1, 1, &[0, 5, 6]), Ok(1));
    assert_eq!(rt; plan.load(5), 4);
    assert_eq!(rt; PlanRefusal::Overload(5).number(), 8);
    Ok(())
}

#[test]
fn the_first_overloaded_channel_is_told(rt: HostRuntime) -> Result<(), Fail> {
    let mut plan = plan_of(4)?;
    assert_eq!(rt; plan.reserve(4, 1, &[3, 7]), Ok(0));
    assert_eq!(rt;
        plan.reserve(1, 1, &[2, 3, 7]),
        Err(PlanRefusal::Overload(3))
    );
    Ok(())
}

#[test]
fn sixty_four_rows(rt: HostRuntime) -> Result<(), Fail> {
    let mut plan = plan_of(4096)?;
    for flow in 0..64u32 {
        assert_eq!(rt; plan.reserve(64, 64, &[319]), Ok(flow));
    }
    assert_eq!(rt; plan.load(319), 4096);
    // the table is looked at before all else
    assert_eq!(rt; plan.reserve(0, 0, &[]), Err(PlanRefusal::TableFull));
    let sheet = plan.sheet();
    assert_eq!(rt; sheet.crossings, 8128);
    assert_eq!(rt;
        sheet.busiest,
        Some(ChannelLoad {
            channel: 319,
            load: 4096,
        })
    );
    let flows = sheet.flows();
    assert!(rt; flows.len() == 64);
    assert_eq!(rt; flows[63].inflight, 512);
    Ok(())
}

#[test]
fn slots_and_packets_at_their_edges(rt: HostRuntime) -> Result<(), Fail> {
    let mut plan = plan_of(4096)?;
    assert_eq!(rt; plan.reserve(0, 0, &[]), Err(PlanRefusal::Slots));
    assert_eq!(rt; plan.reserve(4097, 1, &[0]), Err(PlanRefusal::Slots));
    assert_eq!(rt; plan.reserve(u32::MAX, 1, &[0]), Err(PlanRefusal::Slots));
    assert_eq!(rt; plan.reserve(1, 0, &[]), Err(PlanRefusal::Packet));
    assert_eq!(rt; plan.reserve(1, 65, &[0]), Err(PlanRefusal::Packet));
    assert_eq!(rt; plan.reserve(4096, 64, &[0]), Ok(0));
    Ok(())
}

#[test]
fn routes_at_their_edges(rt: HostRuntime) -> Result<(), Fail> {
    let mut plan = plan_of(4096)?;
    let route = [0, 1, 2, 3, 4, 5, 6, 7, 8, 9, 10, 11, 12, 13, 14, 319, 320];
    assert_eq!(rt;
        plan.reserve(1, 1, &[]),
        Err(PlanRefusal::Route(RouteRefusal::Length))
    );
    assert_eq!(rt;
        plan.reserve(1, 1, &route),
        Err(PlanRefusal::Route(RouteRefusal::Length))
    );
    assert_eq!(rt;
        plan.reserve(1, 1, &route[1..]),
        Err(PlanRefusal::Route(RouteRefusal::UnknownChannel))
    );
    // channels are looked at before their order
    assert_eq!(rt;
        plan.reserve(1, 1, &[3, 3, 320]),
        Err(PlanRefusal::Route(RouteRefusal::UnknownChannel))
    );
    assert_eq!(rt;
        plan.reserve(1, 1, &[3, 3]),
        Err(PlanRefusal::Route(RouteRefusal::NotRising))
    );
    assert_eq!(rt; plan.reserve(1, 1, &route[0..16]), Ok(0));
    assert_eq!(rt; plan.sheet().crossings, 16);
    Ok(())
}

#[test]
fn the_lowest_of_equal_channels_is_busiest(rt: HostRuntime) -> Result<(), Fail> {
    let mut plan = plan_of(8)?;
    assert_eq!(rt; plan.reserve(2, 1, &[7, 9]), Ok(0));
    assert_eq!(rt; plan.reserve(3, 1, &[4, 9]), Ok(1));
    assert_eq!(rt; plan.reserve(3, 1, &[4, 5]), Ok(2));
    assert_eq!(rt;
        plan.sheet().busiest,
        Some(ChannelLoad {
            channel: 4,
            load: 6,
        })
    );
    assert_eq!(rt; plan.reserve(1, 1, &[9]), Ok(3));
    assert_eq!(rt;
        plan.sheet().busiest,
        Some(ChannelLoad {
            channel: 4,
            load: 6,
        })
    );
    assert_eq!(rt; plan.reserve(1, 1, &[9]), Ok(4));
    assert_eq!(rt;
        plan.sheet().busiest,
        Some(ChannelLoad {
            channel: 9,
            load: 7,
        })
    );
    Ok(())
}
