ghost use Rattle.std.specs.Prelude.{◌≡◌, Some};
ghost use Rattle.mesh.specs.Refusals.{refusal_number, refusal_text};

use std::error::Error;
use std::fmt;

/// Why a mesh was not made, or a route not given.
#[derive(Clone, Copy, Debug, PartialEq, Eq)]
pub enum MeshRefusal {
    /// A side that is not 1 to 8, or a node outside the mesh.
    OutOfRange = 15,
    /// The lent list is too short for the whole route.
    ListTooShort = 18,
}

impl MeshRefusal {
    /// The number under which callers know the refusal.
    pub fn number(self) -> u32
        ensures { result ≡ refusal_number self }
    {
        self as u32
    }
}

impl fmt::Display for MeshRefusal {
    ghost output = { λ r. Some (refusal_text r) };

    fn fmt<W: fmt::Write>(&self, f: &mut fmt::Formatter<W>) -> fmt::Result {
        match self {
            MeshRefusal::OutOfRange => f.write_str("side or node out of range"),
            MeshRefusal::ListTooShort => f.write_str("list too short for the route"),
        }
    }
}

impl Error for MeshRefusal {}
