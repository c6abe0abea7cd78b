ghost use Rattle.std.specs.Prelude.{◌≡◌, true, length, take, IfOk};
ghost use Rattle.mesh.specs.Meshes.{IsSide};
ghost use Rattle.mesh.specs.Numbering.{inside, leaving, leads, channel_of, Unambiguous};
ghost use Rattle.mesh.specs.Routes.{mesh_answer, hops_answer, route_answer, list_after};
ghost use Rattle.mesh.specs.Travels.{Travels};

use crate::node::{Heading, Node};
use crate::refusal::MeshRefusal;
use std::marker::Model;

/// The longest side of a mesh.
pub const LONGEST_SIDE: u32 = 8;

/// A mesh of as many columns as rows, 1 to 8 of each. A contract sees its side.
#[derive(Clone, Copy, Debug, PartialEq, Eq)]
pub struct Mesh {
    side: u32,
}

impl Model for Mesh {
    ghost use Rattle.std.specs.Prelude.{ℕ};
    ghost use Rattle.mesh.specs.Meshes.{IsSide};

    ghost Value = { ℕ };

    ghost view = { λ m. m.side };

    ghost invariant = { λ m. IsSide m.side };

    ghost inverse = { λ side. record { side = side } };
}

impl Mesh {
    /// The mesh of the side.
    pub fn new(side: u32) -> Result<Mesh, MeshRefusal>
        ensures answer { result ≡ mesh_answer side }
        ensures within { IfOk result IsSide }
    {
        if !(1..=LONGEST_SIDE).contains(&side) {
            return Err(MeshRefusal::OutOfRange);
        }
        Ok(Mesh { side })
    }

    /// How many columns, and rows, the mesh has.
    pub fn side(&self) -> u32
        ensures value { result ≡ self.now }
        ensures within { IsSide self.now }
    {
        self.side
    }

    /// Whether the node is one of the mesh.
    fn contains(&self, node: Node) -> bool
        ensures answer { result ≡ inside self.now node }
        ensures within { IsSide self.now }
    {
        node.x < self.side && node.y < self.side
    }

    /// Whether the heading leads from the node to another of the mesh, or out.
    fn leads(&self, node: Node, heading: Heading) -> bool
        requires { inside self.now node ≡ true }
        ensures { result ≡ leads self.now node heading }
    {
        match heading {
            Heading::RisingX => node.x + 1 < self.side,
            Heading::FallingX => node.x > 0,
            Heading::RisingY => node.y + 1 < self.side,
            Heading::FallingY => node.y > 0,
            Heading::Out => true,
        }
    }

    /// The number of the channel that leaves the node in the heading.
    fn leaving(&self, node: Node, heading: Heading) -> u32
        requires { inside self.now node ≡ true }
        ensures { result ≡ leaving self.now node heading }
    {
        let Node { x, y } = node;
        let row = self.side - 1;
        let per_heading = self.side * row;
        match heading {
            Heading::RisingX => y * row + x,
            Heading::FallingX => per_heading + y * row + (row - x),
            Heading::RisingY => 2 * per_heading + x * row + y,
            Heading::FallingY => 3 * per_heading + x * row + (row - y),
            Heading::Out => 4 * per_heading + y * self.side + x,
        }
    }

    /// The channel that leaves the node in the heading; none where the node, or
    /// the one it leads to, is outside the mesh.
    pub fn channel(&self, node: Node, heading: Heading) -> Option<u32>
        ensures answer { result ≡ channel_of self.now node heading }
        ensures unambiguous { Unambiguous self.now }
        ensures within { IsSide self.now }
    {
        // No `then`: what `leaving` requires would have to be told to its closure.
        if self.contains(node) && self.leads(node, heading) {
            Some(self.leaving(node, heading))
        } else {
            None
        }
    }

    /// How many channels the route between the nodes has.
    pub fn hops(&self, from: Node, to: Node) -> Result<u32, MeshRefusal>
        ensures answer { result ≡ hops_answer self.now from to }
        ensures within { IsSide self.now }
    {
        if !self.contains(from) || !self.contains(to) {
            return Err(MeshRefusal::OutOfRange);
        }
        Ok(from.x.abs_diff(to.x) + from.y.abs_diff(to.y) + 1)
    }

    /// Writes the channels of the route to the front of the list, in the order of
    /// crossing, and answers how many there are. What lies behind them stays.
    pub fn route(&self, from: Node, to: Node, channels: &mut [u32]) -> Result<usize, MeshRefusal>
        ensures answer { result ≡ route_answer self.now from to (length channels.old) }
        ensures list { channels.new ≡ list_after self.now from to channels.old result }
        ensures travels { IfOk result (λ n. Travels self.now from to (take n channels.new)) }
        ensures within { IsSide self.now }
    {
        let hops = self.hops(from, to)? as usize;
        if channels.len() < hops {
            return Err(MeshRefusal::ListTooShort);
        }
        let mut here = from;
        for channel in &mut channels[..hops] {
            let (heading, next) = here.way_on(to);
            *channel = self.leaving(here, heading);
            here = next;
        }
        Ok(hops)
    }
}
