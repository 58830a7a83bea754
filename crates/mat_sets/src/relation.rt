//! Relations on finitely many vertices, which breadth-first search asks for their arcs.
ghost use Rattle.std.specs.Prelude.{◌≡◌, ◌<◌, ◌&&◌, ℕ, Bool, true};
ghost use Rattle.mat_sets.specs.{Search.{IsNextFrom}, Sets.{is_member}};

use crate::bit_set::BitSet;

/// A relation on the numbers below its size, with starts and goals: the directed graph of a breadth-first search.
pub trait Relation {
    /// How many vertices there are.
    ghost count: { Self → ℕ };

    /// What has to hold of it, so that its methods may be called.
    ghost sound: { Self → Type 0 };

    /// Whether an arc leads from one vertex to another.
    ghost arc: { Self → ℕ → ℕ → Bool };

    /// Whether a vertex is a start.
    ghost start: { Self → ℕ → Bool };

    /// Whether a vertex is a goal.
    ghost goal: { Self → ℕ → Bool };

    /// How many vertices there are.
    fn size(&self) -> u32
        requires { sound self.now }
        ensures { result ≡ count self.now };

    /// Whether v is a start.
    fn is_start(&self, v: u32) -> bool
        requires sound { sound self.now }
        requires below { v < count self.now }
        ensures { result ≡ start self.now v };

    /// Whether v is a goal.
    fn is_goal(&self, v: u32) -> bool
        requires sound { sound self.now }
        requires below { v < count self.now }
        ensures { result ≡ goal self.now v };

    /// The first vertex from `from` on, among these, to which an arc leads from u.
    fn next_arc(&self, u: u32, among: &BitSet, from: u32) -> Option<u32>
        requires sound { sound self.now }
        requires below { u < count self.now }
        requires among { (v : ℕ) → is_member v among.now ≡ true → v < count self.now }
        ensures { IsNextFrom (λ v. is_member v among.now && arc self.now u v) from result };
}
