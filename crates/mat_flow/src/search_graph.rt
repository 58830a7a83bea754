//! Graphs in which walks are sought from starts that can be listed (Schrijver, chapter 6).
ghost use Rattle.std.specs.Prelude.{◌≡◌, ◌<◌, ◌&&◌, ℕ, Bool, true};
ghost use Rattle.mat_sets.specs.{Search.{IsNextFrom}, Sets.{is_member}};

use mat_sets::BitSet;

/// A directed graph on the numbers below its count, with goals, and with starts that are found one after the other.
pub trait SearchGraph {
    /// How many vertices there are.
    ghost count: { Self → ℕ };

    /// What has to hold of it, so that its methods may be called.
    ghost sound: { Self → Type 0 };

    /// Whether an arc leads from one vertex to another.
    ghost arc: { Self → ℕ → ℕ → Bool };

    /// Whether a vertex is a start.
    ghost start: { Self → ℕ → Bool };

    /// Whether a vertex is a goal.
    ghost goal: { Self → ℕ → Bool };

    /// Whether v is a goal.
    fn is_goal(&self, v: u32) -> bool
        requires sound { sound self.now }
        requires below { v < count self.now }
        ensures { result ≡ goal self.now v };

    /// The first start from `from` on, among these vertices.
    fn next_start(&self, among: &BitSet, from: u32) -> Option<u32>
        requires sound { sound self.now }
        requires among { (v : ℕ) → is_member v among.now ≡ true → v < count self.now }
        ensures { IsNextFrom (λ v. is_member v among.now && start self.now v) from result };

    /// The first vertex from `from` on, among these, to which an arc leads from u.
    fn next_arc(&self, u: u32, among: &BitSet, from: u32) -> Option<u32>
        requires sound { sound self.now }
        requires below { u < count self.now }
        requires among { (v : ℕ) → is_member v among.now ≡ true → v < count self.now }
        ensures { IsNextFrom (λ v. is_member v among.now && arc self.now u v) from result };
}
