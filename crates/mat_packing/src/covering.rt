//! Fewest independent sets that cover the elements of a matroid.
ghost use Rattle.std.specs.Prelude.{◌≡◌, ◌≢◌, ◌<◌, ◌≤◌, true, false, length, IfOk, MatchOption};
ghost use Rattle.mat_sets.specs.{Limits.{most_elements}, Families.{family_union}, Sets.{IsSet}};
ghost use Rattle.mat_laws.specs.{Matroids.{IsLoop}, Ranks.{rank}};
ghost use Rattle.mat_packing.specs.{Answers.{HasNoLoop, IsRightCoveringAnswer}, Rooms.{IsEnough}};

use crate::filling::fill_copies;
use mat_laws::{Matroid, is_loop, rank_of};
use mat_sets::{ElemSet, SetList};
use mat_union::members_of;
use std::alloc::{AllocError, Global};

/// Independent sets in which each element stands, as few as there can be, or an element that stands in none.
#[derive(Debug, Drop)]
pub enum Covering {
    /// An element that is dependent alone: no independent sets cover the elements.
    Never {
        /// The element.
        loop_at: u32,
    },
    /// The sets, and a cut A, for whose elements one set fewer has no room; there is none where there are no elements.
    Least {
        /// The sets.
        sets: SetList,
        /// The cut.
        cut: Option<ElemSet>,
    },
}

// The first element that is dependent alone.
fn find_loop<M: Matroid>(alloc: Global, m: &M) -> Result<Option<u32>, AllocError>
    requires { M.sound m.now }
    ensures { IfOk result (λ found. MatchOption found (HasNoLoop (M.ground_size m.now) (M.indep m.now))
        (IsLoop (M.ground_size m.now) (M.indep m.now))) }
{
    for x in 0..m.size() {
        if is_loop(alloc, m, x)? {
            return Ok(Some(x));
        }
    }
    Ok(None)
}

// How many independent sets have room for a set.
fn sets_needed<M: Matroid>(alloc: Global, m: &M, set: &ElemSet) -> Result<u32, AllocError>
    requires sound { M.sound m.now }
    requires set { IsSet (M.ground_size m.now) set.now }
    requires some { 0 < length set.now }
    requires alone { HasNoLoop (M.ground_size m.now) (M.indep m.now) }
    ensures { IfOk result (λ k. IsEnough (length set.now) (rank (M.indep m.now) set.now) k) }
{
    m.lawful();
    let most = m.size();
    let each = rank_of(alloc, m, set)?;
    let members = set.len();
    prove!(members <= most as usize);
    Ok((members as u32 - 1) / each + 1)
}

// Whether so many elements stand in these sets.
fn hold_all(alloc: Global, sets: &SetList, n: u32) -> Result<bool, AllocError>
    ensures full { IfOk result (λ all. all ≡ true → length (family_union sets.now) ≡ n) }
    ensures other { IfOk result (λ all. all ≡ false → length (family_union sets.now) ≢ n) }
{
    let members = members_of(alloc, sets.as_slice())?;
    Ok(members.len() == n as usize)
}

/// As few independent sets as cover the elements, with a cut that shows it (Edmonds; Schrijver, chapter 42), or an element that is
/// dependent alone. So many copies of the matroid are filled as all elements need; where some element is left, the cut of the filled parts
/// needs more. The only error is want of memory.
pub fn cover<M: Matroid>(alloc: Global, m: &M) -> Result<Covering, AllocError>
    requires sound { M.sound m.now }
    requires few { M.ground_size m.now ≤ most_elements }
    ensures { IfOk result (IsRightCoveringAnswer (M.ground_size m.now) (M.indep m.now)) }
{
    m.lawful();
    let n = m.size();
    if let Some(loop_at) = find_loop(alloc, m)? {
        return Ok(Covering::Never { loop_at });
    }
    if n == 0 {
        let sets = SetList::new(Vec::new(alloc));
        return Ok(Covering::Least { sets, cut: None });
    }
    let mut cut = ElemSet::all_below(alloc, n)?;
    let mut count = sets_needed(alloc, m, &cut)?;
    let mut filled = fill_copies(alloc, m, count)?;
    while !hold_all(alloc, &filled.parts, n)? {
        count = sets_needed(alloc, m, &filled.cut)?;
        let next = fill_copies(alloc, m, count)?;
        cut = filled.cut;
        filled = next;
    }
    Ok(Covering::Least {
        sets: filled.parts,
        cut: Some(cut),
    })
}
