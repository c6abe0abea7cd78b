ghost use Rattle.std.specs.Prelude.{[], ◌∷◌};

use lists::Blank;
use routes::Route;

/// One flow of the slot table, as it was reserved.
#[derive(Clone, Copy)]
pub struct Row {
    /// How many slots of each frame the flow has on every channel it crosses.
    pub slots: u32,
    /// The flits of its largest packet.
    pub largest: u32,
    /// The channels it crosses.
    pub route: Route,
}

impl Blank for Row {
    ghost blank = { record { slots = 0; largest = 0; route = 0 ∷ [] } };

    fn blank() -> Row {
        Row {
            slots: 0,
            largest: 0,
            route: Route::blank(),
        }
    }
}
