use accounts::AccountRefusal;
use clocks::ClockRefusal;
use mesh::MeshRefusal;
use plan::PlanRefusal;
use routes::RouteRefusal;
use std::alloc::AllocFailed;
use std::io;

/// Why the tour ends early.
#[derive(Debug, Drop)]
pub enum Stop {
    Mesh(MeshRefusal),
    Route(RouteRefusal),
    Plan(PlanRefusal),
    Clock(ClockRefusal),
    Account(AccountRefusal),
    Memory,
    Output(io::Error),
}

/// What a step answers.
pub type Result<T, E = Stop> = std::result::Result<T, E>;

impl From<MeshRefusal> for Stop {
    fn from(refusal: MeshRefusal) -> Stop {
        Stop::Mesh(refusal)
    }
}

impl From<RouteRefusal> for Stop {
    fn from(refusal: RouteRefusal) -> Stop {
        Stop::Route(refusal)
    }
}

impl From<PlanRefusal> for Stop {
    fn from(refusal: PlanRefusal) -> Stop {
        Stop::Plan(refusal)
    }
}

impl From<ClockRefusal> for Stop {
    fn from(refusal: ClockRefusal) -> Stop {
        Stop::Clock(refusal)
    }
}

impl From<AccountRefusal> for Stop {
    fn from(refusal: AccountRefusal) -> Stop {
        Stop::Account(refusal)
    }
}

impl From<io::Error> for Stop {
    fn from(error: io::Error) -> Stop {
        Stop::Output(error)
    }
}

impl<T: Drop> From<AllocFailed<T>> for Stop {
    fn from(_refused: AllocFailed<T>) -> Stop {
        Stop::Memory
    }
}
