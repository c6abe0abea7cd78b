ghost use Rattle.std.specs.Prelude.{◌≡◌};

/// A value for the places of a list that hold no item.
// Not `Default`, which tells what holds of its value and not which value it is.
pub trait Blank: Copy {
    // the value
    ghost blank: { Self };

    /// The value.
    fn blank() -> Self
        ensures { result ≡ blank };
}

impl Blank for u32 {
    ghost blank = { 0 };

    fn blank() -> u32 {
        0
    }
}
