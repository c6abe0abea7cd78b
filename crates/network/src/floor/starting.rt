ghost use Rattle.std.specs.Prelude.{◌≡◌, map, length, take};
ghost use Rattle.network.specs.Floors.{net_of};
ghost use Rattle.network.specs.Lines.{SoundLines};
ghost use Rattle.network.specs.Starting.{Reserved};
ghost use Rattle.plan.specs.Tables.{SoundTable};
ghost use Rattle.running.specs.Cycles.{opened_flow, started};
ghost use Rattle.sources.specs.Sources.{SoundLine};

use super::Floor;
use lanes::Buffers;
use plan::{Plan, Row};
use sources::Source;

/// The source of a flow that was reserved, which is never refused.
fn open_source(row: Row, window: u32) -> Source
    requires { Reserved row window }
    ensures value { result ≡ opened_flow window row }
    ensures sound { SoundLine result }
{
    Source::new(row.slots, row.largest, window, row.route).unwrap_or_default()
}

/// The sources of a plan's flows; the places behind them stay vacant.
fn open_sources(plan: &Plan) -> [Source; 64]
    ensures sized { length result ≡ 64 }
    ensures lines { take (length plan.now.flows) result ≡ map (opened_flow plan.now.settings.window) plan.now.flows }
    ensures sound { SoundLines (take (length plan.now.flows) result) }
{
    let window = plan.settings().window;
    let mut sources = [Source::vacant(); 64];
    for (flow, row) in plan.rows().iter().enumerate() {
        sources[flow] = open_source(*row, window);
    }
    sources
}

impl Floor {
    /// What a network that starts from the plan moves on.
    pub(crate) fn new(plan: &Plan) -> Floor
        ensures state { net_of result ≡ started plan.now }
        ensures planned { SoundTable plan.now }
    {
        let settings = plan.settings();
        Floor {
            window: settings.window as usize,
            depth: settings.depth as usize,
            head: 0,
            cycles: 0,
            count: plan.flow_count() as usize,
            sources: open_sources(plan),
            buffers: Buffers::new(settings.window),
        }
    }
}
