ghost use Rattle.std.specs.Prelude.{◌≡◌, ◌≤◌};
ghost use Rattle.plan.specs.Tables.{SoundTable};
ghost use Rattle.plan.specs.Reserving.{new_table, set_answer, set_table, terms_checked, load_checked, admitted, reserve_answer, reserve_table};

use super::{Plan, ROWS};
use crate::refusal::PlanRefusal;
use crate::rows::Row;
use crate::setting::Settings;
use lists::FixedList;
use routes::Route;

impl Plan {
    /// A plan with the smallest settings and no flows.
    pub fn new() -> Plan
        ensures value { result ≡ new_table }
        ensures sound { SoundTable result }
    {
        Plan {
            settings: Settings::smallest(),
            rows: FixedList::new(),
        }
    }

    /// Gives the plan other settings and empties it.
    pub fn set(&mut self, settings: Settings) -> Result<(), PlanRefusal>
        ensures answer { result ≡ set_answer settings }
        ensures state { self.new ≡ set_table self.old settings }
        ensures sound { SoundTable self.new }
    {
        // A look at a field, for what a refusal tells of the plan.
        let _ = &self.settings;
        if !settings.fits() {
            return Err(PlanRefusal::Settings);
        }
        self.settings = settings;
        self.rows.clear();
        Ok(())
    }

    /// Whether there is a row left, and the slots and the largest packet are in range.
    fn check_terms(&self, slots: u32, largest: u32) -> Result<(), PlanRefusal>
        ensures answer { result ≡ terms_checked self.now slots largest }
        ensures sound { SoundTable self.now }
    {
        if self.rows.len() >= ROWS {
            return Err(PlanRefusal::TableFull);
        }
        if !(1..=self.settings.frame).contains(&slots) {
            return Err(PlanRefusal::Slots);
        }
        if !(1..=64).contains(&largest) {
            return Err(PlanRefusal::Packet);
        }
        Ok(())
    }

    /// Whether every channel of the route takes the slots; tells the first that does not.
    fn check_load(&self, slots: u32, route: &[u32]) -> Result<(), PlanRefusal>
        requires { slots ≤ self.now.settings.frame }
        ensures { result ≡ load_checked self.now slots route.now }
    {
        for channel in route {
            if self.load(*channel) + slots > self.settings.frame {
                return Err(PlanRefusal::Overload(*channel));
            }
        }
        Ok(())
    }

    /// The row that a reservation takes, or the first check that refuses it.
    fn admitted(&self, slots: u32, largest: u32, route: &[u32]) -> Result<Row, PlanRefusal>
        ensures answer { result ≡ admitted self.now slots largest route.now }
        ensures sound { SoundTable self.now }
    {
        self.check_terms(slots, largest)?;
        let path = Route::new(route)?;
        self.check_load(slots, route)?;
        Ok(Row {
            slots,
            largest,
            route: path,
        })
    }

    /// Reserves slots of every frame for a flow on each channel of its route, and
    /// answers the flow's number.
    pub fn reserve(&mut self, slots: u32, largest: u32, route: &[u32]) -> Result<u32, PlanRefusal>
        ensures answer { result ≡ reserve_answer self.old slots largest route.now }
        ensures state { self.new ≡ reserve_table self.old slots largest route.now }
        ensures sound { SoundTable self.new }
    {
        let row = self.admitted(slots, largest, route)?;
        let flow = self.flow_count();
        // There is room, or the row was not admitted.
        let _ = self.rows.push(row);
        Ok(flow)
    }
}
