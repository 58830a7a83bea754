//! Lists of pairs and of sets, seen as the list of their items.
ghost use Rattle.std.specs.{
  Prelude.{◌≡◌, ◌==◌, ◌<◌, length, map, slice_index_or, slice_set, IfOk, []},
  Cmp.Lexicographic.{pointwise},
  Cmp.Rules.{comparing},
  Ordering.{eq_of_both, on},
};
ghost use Rattle.std.proofs.Common.{rules};
ghost use Rattle.mat_sets.specs.{Families.{AllRising}, Sets.{IsRising}};

use crate::elem_set::ElemSet;
use std::alloc::{AllocError, Global};
use std::marker::Model;

/// A list of pairs, such as the ends of the edges of a graph or the cells of a table.
#[derive(Debug, Drop)]
pub struct Pairs {
    items: Vec<(u32, u32)>,
}

impl Model for Pairs {
    ghost use Rattle.std.specs.Prelude.{ℕ, List};

    ghost Value = { List (ℕ × ℕ) };

    ghost view = { λ a. a.items.items };
}

impl PartialEq for Pairs {
    ghost eq = { pointwise (eq_of_both (on (λ p. p.0) ◌==◌) (on (λ p. p.1) ◌==◌)) };

    ghost laws = { Prim.search (comparing, rules) };

    fn eq(&self, other: &Pairs) -> bool {
        self.items.as_slice() == other.items.as_slice()
    }
}

impl Eq for Pairs {
    ghost laws = { Prim.search (comparing, rules) };
}

impl Pairs {
    /// The list of these pairs. It takes no memory.
    pub fn new(items: Vec<(u32, u32)>) -> Pairs
        ensures { result ≡ items.items }
    {
        Pairs { items }
    }

    /// How many pairs there are.
    pub fn len(&self) -> usize
        ensures { result ≡ length self.now }
    {
        self.items.len()
    }

    /// The pair at place i.
    pub fn get(&self, i: usize) -> (u32, u32)
        requires { i < length self.now }
        ensures { result ≡ slice_index_or self.now i (0, 0) }
    {
        self.items[i]
    }

    /// The pairs in order.
    pub fn as_slice(&self) -> &[(u32, u32)]
        ensures { result.now ≡ self.now }
    {
        self.items.as_slice()
    }

    /// The first number of each pair, such as the tail of each arc. The only error is want of memory; the time is linear.
    pub fn firsts(&self, alloc: Global) -> Result<Vec<u32>, AllocError>
        ensures { IfOk result (λ v. v.items ≡ map (λ p. p.0) self.now) }
    {
        self.items.iter().map(|pair| pair.0).collect(alloc)
    }

    /// The second number of each pair, such as the head of each arc. The only error is want of memory; the time is linear.
    pub fn seconds(&self, alloc: Global) -> Result<Vec<u32>, AllocError>
        ensures { IfOk result (λ v. v.items ≡ map (λ p. p.1) self.now) }
    {
        self.items.iter().map(|pair| pair.1).collect(alloc)
    }

    /// An equal list. The only error is want of memory; the time is linear.
    pub fn copy(&self, alloc: Global) -> Result<Pairs, AllocError>
        ensures { IfOk result (λ pairs. pairs ≡ self.now) }
    {
        let items = Vec::from_slice(alloc, self.items.as_slice())?;
        Ok(Pairs { items })
    }
}

/// A list of sets.
#[derive(Debug, Drop)]
pub struct SetList {
    items: Vec<ElemSet>,
}

impl Model for SetList {
    ghost use Rattle.std.specs.Prelude.{ℕ, List};
    ghost use Rattle.mat_sets.specs.Families.{AllRising};

    ghost Value = { List (List ℕ) };

    ghost view = { λ a. a.items.items };

    ghost invariant = { λ a. AllRising a.items.items };
}

impl PartialEq for SetList {
    ghost eq = { pointwise (pointwise ◌==◌) };

    ghost laws = { Prim.search (comparing, rules) };

    fn eq(&self, other: &SetList) -> bool {
        self.items.as_slice() == other.items.as_slice()
    }
}

impl Eq for SetList {
    ghost laws = { Prim.search (comparing, rules) };
}

impl SetList {
    /// The list of these sets. It takes no memory.
    // The loop only tells the proof what each set keeps.
    #[tactic(auto, using(crate::proofs::Steps::family_steps))]
    pub fn new(items: Vec<ElemSet>) -> SetList
        ensures items { result ≡ items.items }
        ensures rise { AllRising result }
    {
        for set in &items {
            set.rises();
        }
        SetList { items }
    }

    /// How many sets there are.
    pub fn len(&self) -> usize
        ensures count { result ≡ length self.now }
        ensures rise { AllRising self.now }
    {
        self.items.len()
    }

    /// The set at place i.
    #[tactic(auto, using(crate::proofs::Steps::family_steps))]
    pub fn get(&self, i: usize) -> &ElemSet
        requires { i < length self.now }
        ensures item { result.now ≡ slice_index_or self.now i [] }
        ensures rises { IsRising (slice_index_or self.now i []) }
        ensures rise { AllRising self.now }
    {
        &self.items[i]
    }

    /// Puts another set at place i. It takes no memory.
    #[tactic(auto, using(crate::proofs::Steps::family_steps))]
    pub fn replace(&mut self, i: usize, set: ElemSet)
        requires { i < length self.old }
        ensures items { self.new ≡ slice_set self.old i set }
        ensures rise { AllRising self.new }
    {
        set.rises();
        self.items[i] = set;
    }

    /// The sets in order.
    pub fn as_slice(&self) -> &[ElemSet]
        ensures items { result.now ≡ self.now }
        ensures rise { AllRising self.now }
    {
        self.items.as_slice()
    }

    /// The sets in order. It takes no memory.
    pub fn into_vec(self) -> Vec<ElemSet>
        ensures { result.items ≡ self }
    {
        self.items
    }
}
