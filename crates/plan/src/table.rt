use crate::rows::Row;
use crate::setting::Settings;
use lists::FixedList;
use std::marker::Model;

pub mod figures;
pub mod reading;
pub mod reserving;

/// How many flows a plan can hold.
pub const ROWS: usize = 64;

/// A slot table in the making: settings in range, and flows whose slots fit every
/// frame on every channel. A contract sees the settings and the flows.
#[derive(Drop)]
pub struct Plan {
    settings: Settings,
    rows: FixedList<Row, ROWS>,
}

impl Model for Plan {
    ghost use Rattle.plan.specs.Tables.{Table, SoundTable};

    ghost Value = { Table };

    ghost view = { λ p. record { settings = p.settings; flows = p.rows } };

    ghost invariant = { λ p. SoundTable (record { settings = p.settings; flows = p.rows }) };
}
