//! Walks, seen as the list of their vertices or of their arcs.
ghost use Rattle.std.specs.{Prelude.{◌≡◌, ◌==◌, ◌<◌, length, slice_index}, Cmp.Lexicographic.{pointwise}, Cmp.Rules.{comparing}};
ghost use Rattle.std.proofs.Common.{rules};

use std::marker::Model;

/// A walk along the arcs of a graph, by its vertices or by its arcs in order.
#[derive(Debug, Drop)]
pub struct Walk {
    items: Vec<u32>,
}

/// A path in a graph, by the numbers of its arcs in order.
pub type ArcPath = Walk;

impl Model for Walk {
    ghost use Rattle.std.specs.Prelude.{ℕ, List};

    ghost Value = { List ℕ };

    ghost view = { λ a. a.items.items };
}

impl PartialEq for Walk {
    ghost eq = { pointwise ◌==◌ };

    ghost laws = { Prim.search (comparing, rules) };

    fn eq(&self, other: &Walk) -> bool {
        self.items.as_slice() == other.items.as_slice()
    }
}

impl Eq for Walk {
    ghost laws = { Prim.search (comparing, rules) };
}

impl Walk {
    /// The walk along these vertices or arcs. It takes no memory.
    pub fn new(items: Vec<u32>) -> Walk
        ensures { result ≡ items.items }
    {
        Walk { items }
    }

    /// How many vertices or arcs stand in the walk.
    pub fn len(&self) -> usize
        ensures { result ≡ length self.now }
    {
        self.items.len()
    }

    /// The vertex or the arc at place i.
    pub fn get(&self, i: usize) -> u32
        requires { i < length self.now }
        ensures { result ≡ slice_index self.now i }
    {
        self.items[i]
    }

    /// The vertices or the arcs in order.
    pub fn as_slice(&self) -> &[u32]
        ensures { result.now ≡ self.now }
    {
        self.items.as_slice()
    }
}
