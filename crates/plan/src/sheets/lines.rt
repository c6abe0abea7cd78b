ghost use Rattle.std.specs.Prelude.{◌≡◌, ◌≤◌, length};

use super::{FlowFigures, Sheet};

impl Sheet {
    /// The figures of each flow, by its number.
    pub fn flows(&self) -> &[FlowFigures]
        ensures figures { result.now ≡ self.now.flows }
        ensures few { length result.now ≤ 64 }
    {
        self.flows.as_slice()
    }
}
