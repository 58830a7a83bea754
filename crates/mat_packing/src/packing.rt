//! Most disjoint bases of a matroid.
ghost use Rattle.std.specs.Prelude.{◌-◌, ◌<◌, ◌≤◌, length, IfOk};
ghost use Rattle.mat_sets.specs.{Limits.{most_elements}, Sets.{all_below, minus, IsSet}};
ghost use Rattle.mat_laws.specs.Ranks.{rank};
ghost use Rattle.mat_packing.specs.{Answers.{IsRightPackingAnswer}, Rooms.{IsRoom}};

use crate::filling::{are_full, fill_copies};
use mat_laws::{Matroid, rank_of};
use mat_sets::{ElemSet, SetList};
use std::alloc::{AllocError, Global};

/// As many disjoint bases of a matroid as there are, and a cut that shows that there are no more.
#[derive(Debug, Drop)]
pub enum Packing {
    /// The rank is 0: the empty set is the only base, and shares no element with itself.
    Any,
    /// The bases, and a cut A: fewer elements are outside A than one base more would need.
    Most {
        /// The bases.
        bases: SetList,
        /// The cut.
        cut: ElemSet,
    },
}

// How many disjoint bases have room outside a cut.
fn bases_allowed<M: Matroid>(
    alloc: Global,
    m: &M,
    cut: &ElemSet,
    base_size: u32,
) -> Result<u32, AllocError>
    requires sound { M.sound m.now }
    requires set { IsSet (M.ground_size m.now) cut.now }
    requires less { rank (M.indep m.now) cut.now < base_size }
    ensures { IfOk result (λ k. IsRoom (length (minus (all_below (M.ground_size m.now)) cut.now)) (base_size - rank (M.indep m.now) cut.now) k) }
{
    let n = m.size();
    let within = rank_of(alloc, m, cut)?;
    let outside = n - cut.len() as u32;
    Ok(outside / (base_size - within))
}

/// As many disjoint bases as there are, with a cut that shows it (Edmonds; Schrijver, chapter 42). So many copies of the matroid are filled
/// as a first cut allows; where they don't become bases, the cut of the filled parts allows fewer. The only error is want of memory.
pub fn pack_bases<M: Matroid>(alloc: Global, m: &M) -> Result<Packing, AllocError>
    requires sound { M.sound m.now }
    requires few { M.ground_size m.now ≤ most_elements }
    ensures { IfOk result (IsRightPackingAnswer (M.ground_size m.now) (M.indep m.now)) }
{
    m.lawful();
    let n = m.size();
    let all = ElemSet::all_below(alloc, n)?;
    let base_size = rank_of(alloc, m, &all)?;
    if base_size == 0 {
        return Ok(Packing::Any);
    }
    let mut cut = ElemSet::new(alloc);
    let mut count = n / base_size;
    let mut filled = fill_copies(alloc, m, count)?;
    while !are_full(&filled.parts, base_size) {
        count = bases_allowed(alloc, m, &filled.cut, base_size)?;
        let next = fill_copies(alloc, m, count)?;
        cut = filled.cut;
        filled = next;
    }
    Ok(Packing::Most {
        bases: filled.parts,
        cut,
    })
}
