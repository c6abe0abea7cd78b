use crate::stop::Result;
use mesh::Mesh;
use plan::{ChannelLoad, Plan, PlanRefusal};
use printer::Wish;

/// Prints the load of each channel of the route.
fn print_loads(rt: &impl Print, plan: &Plan, route: &[u32]) -> Result<()> {
    print!(rt; "  loads")?;
    for channel in route {
        let load = plan.load(*channel);
        print!(rt; " {channel}:{load}")?;
    }
    println!(rt; "")?;
    Ok(())
}

/// Prints what came of a reservation.
fn print_answer(rt: &impl Print, wish: &Wish, answer: &Result<u32, PlanRefusal>) -> Result<()> {
    let slots = wish.slots;
    let largest = wish.largest;
    match answer {
        Ok(flow) => println!(rt;
            "  flow {flow}: {slots} slots of each frame, packets of up to {largest} flits"
        )?,
        Err(refusal) => {
            let number = refusal.number();
            println!(rt; "  {slots} slots refused, number {number}: {refusal}")?;
        }
    }
    Ok(())
}

/// Reserves a wish, and prints its route and the loads it makes, or why it is refused. Answers the flow, if there is one.
pub fn reserve(rt: &impl Print, mesh: &Mesh, plan: &mut Plan, wish: &Wish) -> Result<Option<u32>> {
    let Wish {
        name,
        from,
        to,
        slots,
        largest,
    } = *wish;
    println!(rt; "")?;
    println!(rt; "{name}: from {from} to {to}")?;
    let mut channels = [0; 16];
    let hops = mesh.route(from, to, &mut channels)?;
    let route = &channels[0..hops];
    println!(rt; "  route {route:?}")?;
    let answer = plan.reserve(slots, largest, route);
    print_answer(rt, wish, &answer)?;
    let flow = answer.ok();
    if flow.is_some() {
        print_loads(rt, plan, route)?;
    }
    Ok(flow)
}

/// Prints the busiest channel.
fn print_busiest(rt: &impl Print, busiest: Option<ChannelLoad>, frame: u32) -> Result<()> {
    match busiest {
        Some(ChannelLoad { channel, load }) => {
            println!(rt; "busiest channel: {channel}, with {load} of {frame} slots")?;
        }
        None => println!(rt; "busiest channel: none")?,
    }
    Ok(())
}

/// Prints the sheet: a line for each flow, then the figures of the whole plan.
pub fn print_sheet(rt: &impl Print, plan: &Plan, names: &[&'static str]) -> Result<()> {
    let sheet = plan.sheet();
    println!(rt; "")?;
    println!(rt; "Sheet")?;
    println!(rt; "flow  slots  largest  hops  in flight  name")?;
    let lines = plan
        .rows()
        .iter()
        .zip(sheet.flows().iter())
        .zip(names.iter());
    for (flow, ((row, figures), name)) in lines.enumerate() {
        let slots = row.slots;
        let largest = row.largest;
        let hops = figures.hops;
        let inflight = figures.inflight;
        println!(rt; "{flow:>4}  {slots:>5}  {largest:>7}  {hops:>4}  {inflight:>9}  {name}")?;
    }
    let crossings = sheet.crossings;
    println!(rt; "crossings that one frame can need: {crossings}")?;
    print_busiest(rt, sheet.busiest, plan.settings().frame)
}
