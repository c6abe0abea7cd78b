ghost use Rattle.std.specs.Prelude.{◌≡◌, Some};
ghost use Rattle.plan.specs.Refusals.{plan_refusal_number, plan_refusal_text, as_plan_refusal};

use routes::RouteRefusal;
use std::error::Error;
use std::fmt;

/// Why a plan refused a call.
#[derive(Clone, Copy, Debug, PartialEq, Eq)]
pub enum PlanRefusal {
    /// A setting outside its range.
    Settings,
    /// All 64 rows are taken.
    TableFull,
    /// No slots, or more than a frame has.
    Slots,
    /// No flits, or more than 64, for the largest packet.
    Packet,
    /// The list of channels is no route.
    Route(RouteRefusal),
    /// The first channel of the route whose load would pass the frame's slots.
    Overload(u32),
}

impl PlanRefusal {
    /// The number under which callers know the refusal.
    pub fn number(self) -> u32
        ensures { result ≡ plan_refusal_number self }
    {
        match self {
            PlanRefusal::Settings => 1,
            PlanRefusal::TableFull => 2,
            PlanRefusal::Slots => 3,
            PlanRefusal::Packet => 4,
            PlanRefusal::Route(refusal) => refusal.number(),
            PlanRefusal::Overload(_) => 8,
        }
    }
}

impl From<RouteRefusal> for PlanRefusal {
    ghost from_gives = { λ x y. y ≡ as_plan_refusal x };

    fn from(cause: RouteRefusal) -> PlanRefusal {
        PlanRefusal::Route(cause)
    }
}

impl fmt::Display for PlanRefusal {
    ghost output = { λ r. Some (plan_refusal_text r) };

    fn fmt<W: fmt::Write>(&self, f: &mut fmt::Formatter<W>) -> fmt::Result {
        match self {
            PlanRefusal::Settings => f.write_str("a setting is out of range"),
            PlanRefusal::TableFull => f.write_str("all 64 rows are taken"),
            PlanRefusal::Slots => f.write_str("a flow has 1 slot to a frame's slots"),
            PlanRefusal::Packet => f.write_str("a largest packet has 1 to 64 flits"),
            PlanRefusal::Route(refusal) => write!(f, "{refusal}"),
            PlanRefusal::Overload(channel) => write!(
                f,
                "channel {channel} would pass a frame's slots"
            ),
        }
    }
}

impl Error for PlanRefusal {}
