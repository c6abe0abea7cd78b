//! The account of a flow, with its limits in its type.
use std::marker::Model;

pub mod calls;
pub mod figures;
pub mod readings;

/// The account of a flow: it gives every packet a frame, and gives no frame more than the flow's share.
///
/// A flow has a number of slots in each frame. The balance is what is left of them in the injection frame, the frame
/// of the flow's next packets; a packet may overdraw it, and the slots of later frames refill it.
/// A contract sees these numbers as one record.
#[derive(Clone, Copy, Debug, PartialEq, Eq)]
pub struct Account {
    slots: u32,
    largest: u32,
    window: u32,
    head: u64,
    frame: u64,
    balance: i64,
}

impl Model for Account {
    ghost use Rattle.accounts.specs.Ledgers.{Ledger, Sound};

    ghost Value = { Ledger };

    ghost view = { λ a. record { slots = a.slots; largest = a.largest; window = a.window; head = a.head; frame = a.frame; balance = a.balance } };

    ghost invariant = { λ a. Sound (record { slots = a.slots; largest = a.largest; window = a.window; head = a.head; frame = a.frame; balance = a.balance }) };

    ghost inverse = { λ l. record { slots = l.slots; largest = l.largest; window = l.window; head = l.head; frame = l.frame; balance = l.balance } };
}
