ghost use Rattle.std.specs.Prelude.{◌≡◌, ℕ, ◌<◌, ◌≤◌, min, Bool, true, false};

/// The longest lag that a clock tells as it is.
pub const LONGEST_LAG: u32 = 4_194_304;

/// Says when the window of frames may shift: told once a cycle whether the head frame is empty, it answers shift or stay.
pub trait WindowClock {
    // the lag
    ghost lag: { Self → ℕ };

    // the count left
    ghost left: { Self → ℕ };

    // whether it shifts, told whether the head frame is empty
    ghost shifts: { Self → Bool → Bool };

    // what it holds once it was told
    ghost told: { Self → Bool → Self };

    /// One cycle: whether the window shifts.
    fn tick(&mut self, empty: bool) -> bool
        ensures answer { result ≡ shifts self.old empty }
        ensures state { self.new ≡ told self.old empty };

    /// The lag, or 4,194,305 for any lag above 4,194,304.
    fn lag(&self) -> u32
        ensures { result ≡ min (lag self.now) 4194305 };

    // the count left is always from 1 to the lag
    ghost positive: { (c : Self) → 1 ≤ left c };

    ghost within: { (c : Self) → left c ≤ lag c };

    // the lag never changes
    ghost steady: { (c : Self) (empty : Bool) → lag (told c empty) ≡ lag c };

    // told busy, it stays
    ghost busy: { (c : Self) → shifts c false ≡ false };

    // told empty, it shifts, or it stays and the count left has fallen
    ghost falls: { (c : Self) → shifts c true ≡ false → left (told c true) < left c };
}
