//! A node is an edge without direction: where a plane cuts the edge, two segments meet.
ghost use Rattle.std.specs.Prelude.{◌≡◌, ◌≢◌, ◌<◌};
ghost use Rattle.plane_segments.specs.Node.{between};

use std::marker::Model;

/// An edge without direction, by the numbers of its vertices: `low` is below `high`.
#[derive(Clone, Copy, Debug, PartialEq, Eq)]
pub struct Node {
    pub low: u32,
    pub high: u32,
}

impl Model for Node {
    ghost use Rattle.std.specs.Prelude.{◌<◌};
    ghost use Rattle.plane_segments.specs.Node.{Node};

    ghost Value = { Node };

    ghost view = { λ n. record { low = n.low; high = n.high } };

    ghost invariant = { λ n. n.low < n.high };

    ghost inverse = { λ v. record { low = v.low; high = v.high } };
}

impl Node {
    /// The node of the edge between two vertices, which have different numbers.
    pub fn between(a: u32, b: u32) -> Node
        requires { a ≢ b }
        ensures node { result ≡ between a b }
        ensures ordered { result.low < result.high }
    {
        Node {
            low: a.min(b),
            high: a.max(b),
        }
    }
}
