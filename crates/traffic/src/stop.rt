use clocks::ClockRefusal;
use mesh::MeshRefusal;
use plan::PlanRefusal;
use running::RunRefusal;
use std::io;

/// Why the run ends early.
#[derive(Debug, Drop)]
pub enum Stop {
    Mesh(MeshRefusal),
    Plan(PlanRefusal),
    Clock(ClockRefusal),
    Run(RunRefusal),
    Output(io::Error),
}

/// What a step answers.
pub type Result<T, E = Stop> = std::result::Result<T, E>;

impl From<MeshRefusal> for Stop {
    fn from(refusal: MeshRefusal) -> Stop {
        Stop::Mesh(refusal)
    }
}

impl From<PlanRefusal> for Stop {
    fn from(refusal: PlanRefusal) -> Stop {
        Stop::Plan(refusal)
    }
}

impl From<ClockRefusal> for Stop {
    fn from(refusal: ClockRefusal) -> Stop {
        Stop::Clock(refusal)
    }
}

impl From<RunRefusal> for Stop {
    fn from(refusal: RunRefusal) -> Stop {
        Stop::Run(refusal)
    }
}

impl From<io::Error> for Stop {
    fn from(error: io::Error) -> Stop {
        Stop::Output(error)
    }
}
