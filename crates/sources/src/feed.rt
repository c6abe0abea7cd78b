use accounts::Account;
use routes::Route;
use std::marker::Model;

pub mod calls;
pub mod counts;

/// How many frames can be open together.
const PLACES: usize = 8;

/// The source of a flow: its account, the flits that wait there for each open frame, and its counts. A contract sees
/// them as one record, in numbers and lists of numbers.
#[derive(Clone, Copy)]
pub struct Source {
    account: Account,
    route: Route,
    waiting: [u64; PLACES],
    sent: u64,
    accepted: u64,
    delivered: u64,
    refused: u32,
}

impl Model for Source {
    ghost use Rattle.sources.specs.Lines.{Line};
    ghost use Rattle.sources.specs.Sources.{SoundLine};

    ghost Value = { Line };

    ghost view = { λ s. record { ledger = s.account; route = s.route; waiting = s.waiting; sent = s.sent; accepted = s.accepted; delivered = s.delivered; refused = s.refused } };

    ghost invariant = { λ s. SoundLine (record { ledger = s.account; route = s.route; waiting = s.waiting; sent = s.sent; accepted = s.accepted; delivered = s.delivered; refused = s.refused }) };

    ghost inverse = { λ l. record { account = l.ledger; route = l.route; waiting = l.waiting; sent = l.sent; accepted = l.accepted; delivered = l.delivered; refused = l.refused } };
}
