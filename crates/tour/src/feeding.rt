use crate::stop::Result;
use routes::Route;
use sources::Source;

/// Offers a packet, and prints the frame that its flits wait for.
fn show_offer(rt: &impl Print, source: &mut Source, size: u32) -> Result<()> {
    match source.offer(size) {
        Ok(frame) => {
            let waiting = source.waiting();
            println!(rt; "  packet of {size} waits for frame {frame}, {waiting} flits wait")?;
        }
        Err(refusal) => {
            let number = refusal.number();
            println!(rt; "  packet of {size} refused, number {number}: {refusal}")?;
        }
    }
    Ok(())
}

/// Lets the flits leave that wait for the earliest frame, and prints how many there were.
fn show_leaving(rt: &impl Print, source: &mut Source) -> Result<()> {
    let before = source.waiting();
    let frame = source.first_frame();
    for _ in 0..before {
        if source.first_frame() == frame {
            let _ = source.leave();
        }
    }
    let waiting = source.waiting();
    let flits = before.saturating_sub(waiting);
    println!(rt; "  {flits} flits of the earliest frame leave, {waiting} wait")?;
    Ok(())
}

/// The source of a flow at work: packets wait for their frames, flits leave in order.
pub fn show_source(
    rt: &impl Print,
    slots: u32,
    largest: u32,
    window: u32,
    channels: &[u32],
) -> Result<()> {
    let mut source = Source::new(slots, largest, window, Route::new(channels)?)?;
    println!(rt; "")?;
    println!(rt; "Source: {slots} slots of each frame, route {channels:?}")?;
    for size in [4, 2, 1, 2, 1] {
        show_offer(rt, &mut source, size)?;
    }
    show_leaving(rt, &mut source)?;
    show_leaving(rt, &mut source)
}
