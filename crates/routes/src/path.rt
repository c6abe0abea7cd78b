use checks::MOST_HOPS;
use lists::{Blank, FixedList};
use std::marker::Model;

pub mod checks;
pub mod crossings;

/// The channels a flow crosses, from its source to its delivery: 1 to 16, each
/// below 320, their numbers rising. A contract sees the list of them.
#[derive(Clone, Copy)]
pub struct Route {
    channels: FixedList<u32, MOST_HOPS>,
}

impl Model for Route {
    ghost use Rattle.std.specs.Prelude.{◌≡◌, ℕ, true, List};
    ghost use Rattle.routes.specs.Channels.{well_formed};

    ghost Value = { List ℕ };

    ghost view = { λ r. r.channels };

    ghost invariant = { λ r. well_formed r.channels ≡ true };

    ghost inverse = { λ cs. record { channels = cs } };
}

impl Blank for Route {
    ghost use Rattle.std.specs.Prelude.{[], ◌∷◌};

    ghost blank = { 0 ∷ [] };

    fn blank() -> Route {
        Route::shortest()
    }
}
