//! Plans the flows of a label printer on the 8 by 8 mesh, shows its clock, its
//! arbiter, the account of a camera and a source at work, and prints each step.
#![tactic(auto)]

mod accounting;
mod feeding;
mod planning;
mod stop;
mod timing;

use mesh::Mesh;
use plan::{Plan, Settings};
use printer::WISHES;
use stop::Result;

/// Plans the printer: its routes, its reservations and its sheet.
fn plan_printer(rt: &(impl Print + AllocGlobal), side: u32, settings: Settings) -> Result<()> {
    let mesh = Mesh::new(side)?;
    let mut plan = Plan::new();
    plan.set(settings)?;
    // A plan keeps no names.
    let mut names = Vec::new(rt.alloc());
    for wish in &WISHES {
        if planning::reserve(rt, &mesh, &mut plan, wish)?.is_some() {
            names.push(wish.name)?;
        }
    }
    planning::print_sheet(rt, &plan, names.as_slice())
}

fn main(rt: HostRuntime) -> Result<()> {
    let (side, window, frame, depth) = (8, 4, 64, 4);
    println!(rt; "Label printer on an {side} by {side} mesh")?;
    println!(rt; "window of {window} frames, frames of {frame} slots, buffers of {depth} flits")?;
    plan_printer(
        &rt,
        side,
        Settings {
            window,
            frame,
            depth,
        },
    )?;
    timing::show_clock(&rt)?;
    timing::show_arbiter(&rt, 253, &[6, 7, 8])?;
    accounting::show_account(&rt, 24, 64, window)?;
    feeding::show_source(&rt, 4, 4, window, &[26, 27, 255])
}
