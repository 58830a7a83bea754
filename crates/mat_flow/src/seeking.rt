//! The breadth-first search that ends at the first goal that it meets, among vertices that no search before has reached in vain (Schrijver, chapter 6).
ghost use Rattle.std.specs.Prelude.{◌≡◌, ◌<◌, ◌||◌, ◌^◌, ℕ, Bool, List, true, length, IfOk, OnOk};
ghost use Rattle.mat_sets.specs.Sets.{is_member, all_below, IsRising};
ghost use Rattle.mat_flow.specs.Seeking.{found_in, live_in, IsChain, IsFollowed, IsRoom, IsSought, IsTake, IsTraced};

use crate::search_graph::SearchGraph;
use mat_sets::BitSet;
use std::alloc::{AllocError, Global};

/// Room for searches that come one after the other: to which vertices they may still come, and what the last one found.
#[derive(Debug, Drop)]
pub struct SearchRoom {
    live: BitSet,
    found: Vec<u32>,
    // For each vertex that was found the one before it: the number of vertices for a start.
    before: Vec<u32>,
}

impl SearchRoom {
    /// Room for searches among all numbers below n. The only error is want of memory.
    pub fn new(alloc: Global, n: u32) -> Result<SearchRoom, AllocError>
        ensures room { IfOk result (λ room. IsRoom n room) }
        ensures all { IfOk result (λ room. live_in room ≡ all_below n) }
    {
        let live = BitSet::all_below(alloc, n)?;
        let found = Vec::with_capacity(alloc, n as usize)?;
        let before = vec![in alloc; 0u32; n as usize]?;
        Ok(SearchRoom {
            live,
            found,
            before,
        })
    }

    /// What the last search found, in the order in which it came to it.
    pub fn found(&self) -> &[u32]
        ensures { result.now ≡ found_in self.now }
    {
        &self.found
    }

    /// The set of what the last search found, with room for the numbers below n. The only error is want of memory.
    pub fn reached(&self, alloc: Global, n: u32) -> Result<BitSet, AllocError>
        ensures members { IfOk result (λ s. (v : ℕ) → is_member v s ≡ is_member v (found_in self.now)) }
        ensures rises { IfOk result (λ s. IsRising s) }
    {
        let mut set = BitSet::with_capacity(alloc, n)?;
        for v in &self.found {
            set.insert(*v)?;
        }
        Ok(set)
    }

    /// Looks for a walk from a start to a goal among the vertices to which a search may come, and ends at the first goal that it
    /// meets. Where there is none, what the starts reach is taken out of those vertices for good; else they stay as they were. Each
    /// vertex that is found is asked once for its arcs. The only error is want of memory.
    pub fn seek<R: SearchGraph>(
        &mut self,
        alloc: Global,
        relation: &R,
    ) -> Result<Option<Vec<u32>>, AllocError>
        requires sound { R.sound relation.now }
        requires room { IsRoom (R.count relation.now) self.old }
        ensures room { OnOk result (IsRoom (R.count relation.now) self.new) }
        ensures walk { IfOk result (IsSought (R.count relation.now) (R.arc relation.now) (R.start relation.now) (R.goal relation.now)
            (live_in self.old) (live_in self.new) (found_in self.new)) }
    {
        self.found.clear();
        let mut goal = take_starts(relation, &mut self.live, &mut self.found, &mut self.before)?;
        let mut at = 0;
        while goal.is_none() && at < self.found.len() {
            let u = self.found[at];
            goal = take_arcs(
                relation,
                u,
                &mut self.live,
                &mut self.found,
                &mut self.before,
            )?;
            at += 1;
        }
        match goal {
            Some(last) => {
                let walk = trace_back(alloc, &self.before, last)?;
                put_back(&mut self.live, &self.found)?;
                Ok(Some(walk))
            }
            None => Ok(None),
        }
    }
}

// Finds the starts among the live vertices, up to the first goal among them: each is found, and gets the number of vertices before it.
fn take_starts<R: SearchGraph>(
    relation: &R,
    live: &mut BitSet,
    found: &mut Vec<u32>,
    before: &mut Vec<u32>,
) -> Result<Option<u32>, AllocError>
    requires sound { R.sound relation.now }
    requires few { R.count relation.now < 2 ^ 32 }
    requires live { (v : ℕ) → is_member v live.old ≡ true → v < R.count relation.now }
    requires long { length before.old.items ≡ R.count relation.now }
    ensures take { IfOk result (IsTake (R.start relation.now) (R.goal relation.now) (R.count relation.now) live.old found.old.items before.old.items
        live.new found.new.items before.new.items) }
    ensures more { OnOk result (IsFollowed live.old found.old.items found.new.items) }
{
    let none = before.len() as u32;
    let mut from = 0;
    while let Some(next) = relation.next_start(live, from) {
        found.push(next)?;
        live.remove(next);
        before[next as usize] = none;
        if relation.is_goal(next) {
            return Ok(Some(next));
        }
        from = next + 1;
    }
    Ok(None)
}

// Finds the live vertices to which arcs lead from u, up to the first goal among them: each is found, and gets u before it.
fn take_arcs<R: SearchGraph>(
    relation: &R,
    u: u32,
    live: &mut BitSet,
    found: &mut Vec<u32>,
    before: &mut Vec<u32>,
) -> Result<Option<u32>, AllocError>
    requires sound { R.sound relation.now }
    requires few { R.count relation.now < 2 ^ 32 }
    requires below { u < R.count relation.now }
    requires live { (v : ℕ) → is_member v live.old ≡ true → v < R.count relation.now }
    requires long { length before.old.items ≡ R.count relation.now }
    ensures take { IfOk result (IsTake (R.arc relation.now u) (R.goal relation.now) u live.old found.old.items before.old.items
        live.new found.new.items before.new.items) }
    ensures more { OnOk result (IsFollowed live.old found.old.items found.new.items) }
{
    let mut from = 0;
    while let Some(next) = relation.next_arc(u, live, from) {
        found.push(next)?;
        live.remove(next);
        before[next as usize] = u;
        if relation.is_goal(next) {
            return Ok(Some(next));
        }
        from = next + 1;
    }
    Ok(None)
}

// The walk to a vertex that was found, by the vertex before each.
fn trace_back(alloc: Global, before: &[u32], last: u32) -> Result<Vec<u32>, AllocError>
    requires { (n : ℕ) × (arc : ℕ → ℕ → Bool) × (start : ℕ → Bool) × (live : List ℕ) × (rest : List ℕ) × (found : List ℕ)
        × (is_member last found ≡ true) × IsChain n arc start live rest found before.now }
    ensures { IfOk result (λ walk. (n : ℕ) (arc : ℕ → ℕ → Bool) (start : ℕ → Bool) (live rest found : List ℕ) → is_member last found ≡ true
        → IsChain n arc start live rest found before.now → IsTraced n arc start found last walk.items) }
{
    let mut walk = vec![in alloc; last; 1]?;
    let mut at = last;
    while (before[at as usize] as usize) < before.len() {
        at = before[at as usize];
        walk.insert(0, at)?;
    }
    Ok(walk)
}

// Puts these vertices back among the live ones.
#[tactic(auto, using(crate::proofs::FirstGoals::put_more))]
fn put_back(live: &mut BitSet, found: &[u32]) -> Result<(), AllocError>
    ensures { OnOk result ((v : ℕ) → is_member v live.new ≡ (is_member v live.old || is_member v found.now)) }
{
    for v in found {
        live.insert(*v)?;
    }
    Ok(())
}
