use crate::stop::Result;
use arbiters::{Arbiter, FlowSet, LeastRecentlyGranted};
use clocks::{Barrier, Sampled, WindowClock};

/// The chip's clock at work: a barrier that is read every second cycle.
pub fn show_clock(rt: &impl Print) -> Result<()> {
    let mut clock = Sampled::new(Barrier::new(2)?, 2)?;
    let lag = clock.lag();
    println!(rt; "")?;
    println!(rt; "Clock: a barrier of latency 2, read every 2nd cycle, lag {lag}")?;
    for (cycle, empty) in [false, true, true, true, true, true, true, true]
        .iter()
        .enumerate()
    {
        let head = if *empty { "empty" } else { "busy" };
        let answer = if clock.tick(*empty) { "shift" } else { "stay" };
        println!(rt; "  cycle {cycle}: head frame {head}, {answer}")?;
    }
    Ok(())
}

/// The chip's arbiter at work: three camera lanes that all want the channel out to the vision engine.
pub fn show_arbiter(rt: &impl Print, channel: u32, lanes: &[u32]) -> Result<()> {
    let mut arbiter = LeastRecentlyGranted::new();
    let mut flows = FlowSet::new();
    for lane in lanes {
        flows.insert(*lane);
    }
    println!(rt; "")?;
    println!(rt; "Arbiter: least recently granted, flows {lanes:?} ask for channel {channel}")?;
    for round in 0..5u32 {
        match arbiter.pick(channel, &flows) {
            Some(flow) => {
                arbiter.grant(channel, flow);
                println!(rt; "  round {round}: flow {flow} crosses")?;
            }
            None => println!(rt; "  round {round}: nobody")?,
        }
    }
    Ok(())
}
