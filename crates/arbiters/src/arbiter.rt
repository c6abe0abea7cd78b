ghost use Rattle.std.specs.Prelude.{◌≡◌, ℕ, ◌<◌, ◌≤◌, Bool, true, false, ◌⊎◌, List, is_some, Some, None, Option};
ghost use Rattle.arbiters.specs.FlowSets.{has};

use crate::flow_set::FlowSet;

/// Channels have the numbers below this one.
pub const CHANNELS: u32 = 320;

/// Says which flow crosses a channel; one arbiter serves all channels.
pub trait Arbiter {
    // the flow that it answers now, for a channel and a set of flows
    ghost choice: { Self → ℕ → List Bool → Option ℕ };

    // what it holds once it was told that the flow crossed the channel
    ghost granted: { Self → ℕ → ℕ → Self };

    /// The flow of the set that may cross the channel; none for an empty set or a channel above 319.
    fn pick(&self, channel: u32, flows: &FlowSet) -> Option<u32>
        ensures { result ≡ choice self.now channel flows.now };

    /// Tells that the flow crossed the channel; a channel above 319 or a flow above 63 is ignored.
    fn grant(&mut self, channel: u32, flow: u32)
        ensures { self.new ≡ granted self.old channel flow };

    // the flow belongs to the set
    ghost belongs: { (a : Self) (c : ℕ) (s : List Bool) (f : ℕ) → choice a c s ≡ Some f → has s f ≡ true };

    // there is one for each channel and each set with a member
    ghost chooses: { (a : Self) (c : ℕ) (s : List Bool) (f : ℕ) → c < 320 → has s f ≡ true → is_some (choice a c s) ≡ true };

    // none for the empty set, and none for a channel above 319
    ghost nobody: { (a : Self) (c : ℕ) (s : List Bool) → ((f : ℕ) → has s f ≡ false) → choice a c s ≡ None };

    ghost nowhere: { (a : Self) (c : ℕ) (s : List Bool) → 320 ≤ c → choice a c s ≡ None };

    // a grant for a channel above 319 or a flow above 63 is ignored
    ghost ignores: { (a : Self) (c f : ℕ) → (320 ≤ c) ⊎ (64 ≤ f) → granted a c f ≡ a };
}
