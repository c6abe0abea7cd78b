//! Plans the flows of a label printer on the 8 by 8 mesh, runs its network, and prints what is promised and what moves.
#![tactic(auto)]

mod moving;
mod stop;

use mesh::Mesh;
use plan::{Plan, Settings};
use printer::WISHES;
use stop::Result;

/// Plans the printer; a wish that does not fit is left out.
fn plan_printer(side: u32, settings: Settings) -> Result<Plan> {
    let mesh = Mesh::new(side)?;
    let mut plan = Plan::new();
    plan.set(settings)?;
    for wish in &WISHES {
        let mut channels = [0; 16];
        let hops = mesh.route(wish.from, wish.to, &mut channels)?;
        let _ = plan.reserve(wish.slots, wish.largest, &channels[0..hops]);
    }
    Ok(plan)
}

fn main(rt: HostRuntime) -> Result<()> {
    let (side, window, frame, depth) = (8, 4, 64, 4);
    println!(rt; "Label printer on an {side} by {side} mesh")?;
    println!(rt; "window of {window} frames, frames of {frame} slots, buffers of {depth} flits")?;
    let plan = plan_printer(
        side,
        Settings {
            window,
            frame,
            depth,
        },
    )?;
    moving::run_printer(&rt, plan)
}
