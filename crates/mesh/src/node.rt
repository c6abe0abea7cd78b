ghost use Rattle.std.specs.Prelude.{◌≡◌, Some};
ghost use Rattle.mesh.specs.Texts.{node_text};
ghost use Rattle.mesh.specs.Walks.{towards, onward};

use std::fmt;

/// A node of a mesh, by its column and its row.
#[derive(Clone, Copy, Debug, PartialEq, Eq)]
pub struct Node {
    pub x: u32,
    pub y: u32,
}

/// The five kinds of channel that leave a node.
#[derive(Clone, Copy, Debug, PartialEq, Eq)]
pub enum Heading {
    /// To the next column.
    RisingX,
    /// To the column before.
    FallingX,
    /// To the next row.
    RisingY,
    /// To the row before.
    FallingY,
    /// Out of the mesh.
    Out,
}

impl fmt::Display for Node {
    ghost output = { λ a. Some (node_text a) };

    fn fmt<W: fmt::Write>(&self, f: &mut fmt::Formatter<W>) -> fmt::Result {
        let x = self.x;
        let y = self.y;
        write!(f, "({x}, {y})")
    }
}

impl Node {
    /// The heading in which a route to the target leaves the node, and the node
    /// that it leads to: the same one where it leads out.
    pub(crate) fn way_on(self, target: Node) -> (Heading, Node)
        ensures { result ≡ (towards self target, onward self target) }
    {
        let Node { x, y } = self;
        if x < target.x {
            (Heading::RisingX, Node { x: x + 1, y })
        } else if x > target.x {
            (Heading::FallingX, Node { x: x - 1, y })
        } else if y < target.y {
            (Heading::RisingY, Node { x, y: y + 1 })
        } else if y > target.y {
            (Heading::FallingY, Node { x, y: y - 1 })
        } else {
            (Heading::Out, self)
        }
    }
}
