use lanes::{Flit, Lane};
use routes::Route;
use sources::{OfferRefusal, ShiftRefusal, Source};
use std::test::Fail;

#[test]
fn a_lane_lets_out_what_came_first(rt: HostRuntime) {
    let mut lane = Lane::new();
    for number in 0..8u64 {
        assert_eq!(rt; lane.push(Flit { flow: 3, number }), Ok(()));
    }
    let ninth = Flit { flow: 3, number: 8 };
    assert_eq!(rt; lane.push(ninth), Err(ninth));
    assert_eq!(rt; lane.len(), 8);
    for number in 0..8u64 {
        assert_eq!(rt; lane.front(), Some(Flit { flow: 3, number }));
        assert_eq!(rt; lane.pop(), Some(Flit { flow: 3, number }));
    }
    assert_eq!(rt; lane.pop(), None);
}

#[test]
fn flits_leave_in_the_order_of_waiting(rt: HostRuntime) -> Result<(), Fail> {
    let mut source = Source::new(2, 4, 3, Route::new(&[0, 2])?)?;
    assert_eq!(rt; source.first_frame(), None);
    assert_eq!(rt; source.offer(5), Err(OfferRefusal::PacketSize));
    assert_eq!(rt; source.offer(4), Ok(1));
    assert_eq!(rt; source.offer(1), Err(OfferRefusal::WindowSpent));
    assert_eq!(rt; source.refused(), 1);
    assert_eq!(rt; source.waiting(), 4);
    for number in 0..4u64 {
        assert_eq!(rt; source.first_frame(), Some(1));
        assert_eq!(rt; source.leave(), Some(number));
    }
    assert_eq!(rt; source.leave(), None);
    Ok(())
}

#[test]
fn a_shift_waits_for_the_head_frame(rt: HostRuntime) -> Result<(), Fail> {
    let mut source = Source::new(2, 1, 2, Route::shortest())?;
    assert_eq!(rt; source.offer(1), Ok(1));
    assert_eq!(rt; source.shift(), Ok(()));
    // frame 1 is the head frame now, and its flit still waits
    assert_eq!(rt; source.shift(), Err(ShiftRefusal::HeadFrameWaits));
    assert_eq!(rt; source.leave(), Some(0));
    assert_eq!(rt; source.shift(), Ok(()));
    assert_eq!(rt; source.deliver(), Some(0));
    assert_eq!(rt; source.deliver(), None);
    assert_eq!(rt; (source.accepted(), source.delivered()), (1, 1));
    Ok(())
}
