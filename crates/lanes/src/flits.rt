ghost use Rattle.std.specs.Prelude.{◌≡◌};

use lists::Blank;

/// A flit, known by its flow and its number among that flow's accepted flits.
#[derive(Clone, Copy, Debug, PartialEq, Eq)]
pub struct Flit {
    pub flow: u32,
    pub number: u64,
}

impl Blank for Flit {
    ghost blank = { record { flow = 0; number = 0 } };

    fn blank() -> Flit {
        Flit { flow: 0, number: 0 }
    }
}
