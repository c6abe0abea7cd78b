ghost use Rattle.std.specs.Prelude.{◌≡◌};
ghost use Rattle.sources.specs.Sources.{SoundLine};

use super::Source;

impl Source {
    /// How many flits were accepted.
    pub fn accepted(&self) -> u64
        ensures value { result ≡ self.now.accepted }
        ensures sound { SoundLine self.now }
    {
        self.accepted
    }

    /// How many flits were delivered.
    pub fn delivered(&self) -> u64
        ensures value { result ≡ self.now.delivered }
        ensures sound { SoundLine self.now }
    {
        self.delivered
    }

    /// How many packets were refused for a spent window, counted up to 4,294,967,295.
    pub fn refused(&self) -> u32
        ensures value { result ≡ self.now.refused }
        ensures sound { SoundLine self.now }
    {
        self.refused
    }
}
