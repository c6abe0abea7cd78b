ghost use Rattle.std.specs.Prelude.{◌≡◌};
ghost use Rattle.plan.specs.Settings.{settings_fit, new_settings};

/// What a plan is set to before flows are reserved on it.
#[derive(Clone, Copy, Debug, PartialEq, Eq)]
pub struct Settings {
    /// How many frames are open together, 2 to 8.
    pub window: u32,
    /// How many slots a frame offers on each channel, 1 to 4,096.
    pub frame: u32,
    /// How many flits a channel buffers for each open frame, 1 to 8.
    pub depth: u32,
}

impl Settings {
    /// The settings of a new plan.
    pub fn smallest() -> Settings
        ensures { result ≡ new_settings }
    {
        Settings {
            window: 2,
            frame: 1,
            depth: 1,
        }
    }

    /// Whether each setting is in its range.
    pub fn fits(&self) -> bool
        ensures { result ≡ settings_fit self.now }
    {
        (2..=8).contains(&self.window)
            && (1..=4096).contains(&self.frame)
            && (1..=8).contains(&self.depth)
    }
}
