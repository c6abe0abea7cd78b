ghost use Rattle.std.specs.Prelude.{◌≡◌, length};
ghost use Rattle.plan.specs.Tables.{slots_on, load, SoundTable};

use super::Plan;
use crate::rows::Row;
use crate::setting::Settings;

impl Row {
    /// The slots that the flow takes on the channel.
    fn slots_on(&self, channel: u32) -> u32
        ensures { result ≡ slots_on channel self.now }
    {
        if self.route.crosses(channel) {
            self.slots
        } else {
            0
        }
    }
}

impl Plan {
    /// The settings in force.
    pub fn settings(&self) -> Settings
        ensures value { result ≡ self.now.settings }
        ensures sound { SoundTable self.now }
    {
        self.settings
    }

    /// How many flows are reserved.
    pub fn flow_count(&self) -> u32
        ensures value { result ≡ length self.now.flows }
        ensures sound { SoundTable self.now }
    {
        self.rows.len() as u32
    }

    /// The reserved flows, in the order of reservation.
    pub fn rows(&self) -> &[Row]
        ensures value { result.now ≡ self.now.flows }
        ensures sound { SoundTable self.now }
    {
        self.rows.as_slice()
    }

    /// The slots of all flows routed over the channel.
    pub fn load(&self, channel: u32) -> u32
        ensures value { result ≡ load self.now.flows channel }
        ensures sound { SoundTable self.now }
    {
        self.rows().iter().map(|row| row.slots_on(channel)).sum()
    }
}
