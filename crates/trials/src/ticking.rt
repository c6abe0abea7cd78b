use clocks::*;
use std::test::Fail;

#[test]
fn barrier_shifts_at_its_last_empty_cycle(rt: HostRuntime) -> Result<(), Fail> {
    let mut clock = Barrier::new(2)?;
    assert!(rt; !clock.tick(false));
    assert!(rt; !clock.tick(true));
    assert!(rt; clock.tick(true));
    assert_eq!(rt; clock.lag(), 2);
    Ok(())
}

#[test]
fn timer_waits_for_an_empty_cycle(rt: HostRuntime) -> Result<(), Fail> {
    let mut clock = Timer::new(3)?;
    assert!(rt; !clock.tick(false));
    assert!(rt; !clock.tick(false));
    assert!(rt; !clock.tick(false));
    assert!(rt; clock.tick(true));
    assert!(rt; !clock.tick(true));
    Ok(())
}

#[test]
fn sampled_clocks_nest_up_to_the_longest_lag(rt: HostRuntime) -> Result<(), Fail> {
    let below = Sampled::new(Timer::new(65_535)?, 64)?;
    assert_eq!(rt; below.lag(), 4_194_240);
    let refused = Sampled::new(below, 2).err();
    assert_eq!(rt; refused.map(|refusal| refusal.number()), Some(14));
    Ok(())
}

#[test]
fn a_sampled_barrier_shifts_at_the_fourth_empty_cycle(rt: HostRuntime) -> Result<(), Fail> {
    let mut clock = Sampled::new(Barrier::new(2)?, 2)?;
    for _ in 0..3 {
        assert!(rt; !clock.tick(true));
    }
    assert!(rt; clock.tick(true));
    Ok(())
}

#[test]
fn periods_at_their_edges(rt: HostRuntime) -> Result<(), Fail> {
    assert!(rt; Barrier::new(0).is_err() && Barrier::new(65).is_err());
    assert!(rt; Barrier::new(1).is_ok() && Barrier::new(64).is_ok());
    assert!(rt; Timer::new(0).is_err() && Timer::new(65_536).is_err());
    assert!(rt; Timer::new(1).is_ok() && Timer::new(65_535).is_ok());
    assert!(rt;
        Sampled::new(Barrier::new(1)?, 0).is_err() && Sampled::new(Barrier::new(1)?, 65).is_err()
    );
    assert!(rt;
        Sampled::new(Barrier::new(1)?, 1).is_ok() && Sampled::new(Barrier::new(64)?, 64).is_ok()
    );
    Ok(())
}
