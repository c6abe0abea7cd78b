use crate::stop::Result;
use arbiters::LeastRecentlyGranted;
use clocks::{Barrier, Sampled};
use guarantee::{Bounds, figures, share};
use network::{Ending, Network, RunRefusal};
use plan::Plan;

/// The printer's network: a barrier that is looked at every other cycle, and the flow that crossed least recently first.
type Printer = Network<LeastRecentlyGranted, Sampled<Barrier>>;

/// The printer's network, and what its run has come to so far.
#[derive(Drop)]
struct Watched {
    network: Printer,
    since_shift: u32,
    longest_epoch: u32,
    delivered: u32,
}

impl Watched {
    /// Starts the plan; nothing was seen yet.
    // The network is large: it is made where it stays, and not moved.
    fn start(plan: Plan, arbiter: LeastRecentlyGranted, clock: Sampled<Barrier>) -> Watched {
        Watched {
            network: Network::start(plan, arbiter, clock),
            since_shift: 0,
            longest_epoch: 0,
            delivered: 0,
        }
    }

    /// Makes a cycle, and notes what came of it.
    fn cycle(&mut self) -> Result<(bool, u32)> {
        let (shifted, delivered) = self.network.cycle()?;
        self.since_shift = self.since_shift.saturating_add(1);
        self.delivered = self.delivered.saturating_add(delivered);
        if shifted {
            self.longest_epoch = self.longest_epoch.max(self.since_shift);
            self.since_shift = 0;
        }
        Ok((shifted, delivered))
    }
}

/// Prints a figure, or that there is none.
fn print_figure(rt: &impl Print, what: &str, figure: Option<u64>) -> Result<()> {
    match figure {
        Some(cycles) => println!(rt; "  {what}: {cycles} cycles")?,
        None => println!(rt; "  {what}: none, the clock's lag is too long")?,
    }
    Ok(())
}

/// Prints the figures that hold whatever is offered.
fn print_figures(rt: &impl Print, plan: &Plan, bounds: Option<Bounds>) -> Result<()> {
    println!(rt; "")?;
    println!(rt; "Figures, whatever is offered")?;
    print_figure(rt, "longest epoch", bounds.map(|bounds| bounds.epoch))?;
    print_figure(
        rt,
        "longest way from offer to delivery",
        bounds.map(|bounds| bounds.delivery),
    )?;
    let window = plan.settings().window;
    for flow in 0..plan.flow_count() {
        if let (Some(one), Some(all)) = (share(plan, flow, 1), share(plan, flow, window)) {
            println!(rt;
                "  flow {flow}: at most {one} flits of one frame, {all} of {window} frames"
            )?;
        }
    }
    Ok(())
}

/// Offers packets of two flits of every flow until its window is spent.
fn fill(rt: &impl Print, network: &mut Printer) -> Result<()> {
    println!(rt; "")?;
    println!(rt; "Every flow offers packets of 2 flits until its window is spent")?;
    for flow in 0..network.flow_count() {
        let mut packets = 0u32;
        for _ in 0..1000u32 {
            match network.offer(flow, 2) {
                Ok(_) => packets = packets.saturating_add(1),
                Err(RunRefusal::WindowSpent) => break,
                Err(refusal) => return Err(refusal.into()),
            }
        }
        println!(rt; "  flow {flow}: {packets} packets accepted")?;
    }
    let held = network.held();
    println!(rt; "  {held} flits wait at their sources")?;
    Ok(())
}

/// Prints the first cycles one by one.
fn show_cycles(rt: &impl Print, run: &mut Watched) -> Result<()> {
    for cycle in 1..13u32 {
        let (shifted, delivered) = run.cycle()?;
        let held = run.network.held();
        let head = run.network.head_frame();
        let shift = if shifted { ", the window shifts" } else { "" };
        println!(rt;
            "  cycle {cycle:>2}: head frame {head}, {delivered} delivered, {held} held{shift}"
        )?;
    }
    Ok(())
}

/// Prints each flow's counts.
fn print_counts(rt: &impl Print, network: &Printer) -> Result<()> {
    println!(rt; "flow  accepted  delivered  refused")?;
    for flow in 0..network.flow_count() {
        if let Some(counts) = network.counts(flow) {
            let accepted = counts.accepted;
            let delivered = counts.delivered;
            let refused = counts.refused;
            println!(rt; "{flow:>4}  {accepted:>8}  {delivered:>9}  {refused:>7}")?;
        }
    }
    Ok(())
}

/// Makes cycles until nothing is held, and prints how close the run came to its figures.
fn drain(rt: &impl Print, run: &mut Watched, bounds: Option<Bounds>) -> Result<()> {
    for _ in 0..100000u32 {
        if run.network.held() == 0 {
            break;
        }
        run.cycle()?;
    }
    let cycles = run.network.cycles();
    let delivered = run.delivered;
    let longest = run.longest_epoch;
    println!(rt; "  all {delivered} flits delivered after {cycles} cycles")?;
    println!(rt; "")?;
    println!(rt; "How close the run came to its figures")?;
    println!(rt; "  longest epoch seen: {longest} cycles")?;
    print_figure(
        rt,
        "longest there can be",
        bounds.map(|bounds| bounds.epoch),
    )?;
    println!(rt; "  cycles made by then: {cycles}")?;
    print_figure(
        rt,
        "longest there can be",
        bounds.map(|bounds| bounds.delivery),
    )?;
    print_counts(rt, &run.network)
}

/// Prints a bounded run.
fn show_run(rt: &impl Print, network: &mut Printer, allowance: u32) -> Result<()> {
    let (made, ending) = network.run(allowance);
    let why = match ending {
        Ending::Empty => "nothing is held",
        Ending::Spent => "the allowance is used up",
        Ending::Over => "the run is over",
    };
    println!(rt; "  bounded run, allowance {allowance}: {made} cycles, then {why}")?;
    Ok(())
}

/// Starts the plan, offers, cycles, and prints what moves.
pub fn run_printer(rt: &impl Print, plan: Plan) -> Result<()> {
    let arbiter = LeastRecentlyGranted::new();
    let clock = Sampled::new(Barrier::new(2)?, 2)?;
    let bounds = figures(&plan, &arbiter, &clock);
    print_figures(rt, &plan, bounds)?;
    let mut run = Watched::start(plan, arbiter, clock);
    fill(rt, &mut run.network)?;
    println!(rt; "")?;
    println!(rt; "Cycles")?;
    show_cycles(rt, &mut run)?;
    drain(rt, &mut run, bounds)?;
    println!(rt; "")?;
    println!(rt; "Two packets more")?;
    let first = run.network.offer(0, 2)?;
    let second = run.network.offer(9, 2)?;
    println!(rt; "  flow 0's gets frame {first}, flow 9's frame {second}")?;
    show_run(rt, &mut run.network, 3)?;
    show_run(rt, &mut run.network, 1000)?;
    show_run(rt, &mut run.network, 1000)?;
    if let Err(refusal) = run.network.offer(64, 1) {
        let number = refusal.number();
        println!(rt; "  offer of flow 64 refused, number {number}: {refusal}")?;
    }
    Ok(())
}
