//! Unions of greatest weight.
ghost use Rattle.std.specs.Prelude.{◌≡◌, ◌<◌, ◌^◌, ◌||◌, ℕ, Bool, length, map, IfOk, OnOk};
ghost use Rattle.mat_sets.specs.{
  Families.{family_union},
  Search.{those_below},
  Sets.{is_member, IsRising, IsSubset},
  Weights.{is_same, weight_at},
};
ghost use Rattle.mat_union.specs.{GrownParts.{AreDone, AreFresh, AreGrowing, AreKept, AreSound}, RightUnions.{IsRightUnion}};

use crate::empty::empty_parts;
use crate::growth::{Growth, all_lawful, grow, growth_from};
use mat_laws::Matroid;
use mat_sets::{ElemSet, SetList, Weight, falling_weights};
use std::alloc::{AllocError, Global};

/// A weight, and a cut of the elements that weigh at least as much.
#[derive(Debug, Drop)]
pub struct Level {
    /// The weight.
    pub at: Weight,
    /// The cut.
    pub cut: ElemSet,
}

/// Disjoint sets, one for each matroid and independent in it, with a cut for each weight.
#[derive(Debug, Drop)]
pub struct UnionAnswer {
    /// The sets.
    pub parts: SetList,
    /// The weights, falling, each with its cut.
    pub levels: Vec<Level>,
}

// The elements of this weight.
fn elements_of(alloc: Global, weights: &[Weight], at: Weight) -> Result<ElemSet, AllocError>
    requires { length weights.now < 2 ^ 32 }
    ensures { IfOk result (λ s. s ≡ those_below (length weights.now) (λ x. is_same (weight_at weights.now x) at)) }
{
    let mut set = ElemSet::new(alloc);
    for x in 0..weights.len() {
        set.add_if(x as u32, weights[x] == at)?;
    }
    Ok(set)
}

// The number of elements of matroids that have n each.
fn common_size<M: Matroid>(matroids: &[M], _n: usize) -> u32
    requires some { 0 < length matroids.now }
    requires sound { AreSound M.ground_size M.sound _n matroids.now }
    ensures { result ≡ _n }
{
    matroids[0].size()
}

/// Adds these elements one after the other, each where moves can bring it in.
pub(crate) fn grow_by<M: Matroid>(
    alloc: Global,
    matroids: &[M],
    growth: &mut Growth<M::Kept>,
    n: u32,
    elements: &[u32],
) -> Result<(), AllocError>
    requires some { 0 < length matroids.now }
    requires few { length matroids.now < 2 ^ 32 }
    requires sound { AreSound M.ground_size M.sound n matroids.now }
    requires growing { AreGrowing n (map M.indep matroids.now) growth.old.parts growth.old.spanned growth.old.unspanned }
    requires kept { AreKept M.keeps matroids.now growth.old.parts growth.old.kept.items }
    requires rises { IsRising elements.now }
    requires fresh { AreFresh n elements.now growth.old.parts growth.old.spanned }
    ensures growing { OnOk result (AreGrowing n (map M.indep matroids.now) growth.new.parts growth.new.spanned growth.new.unspanned) }
    ensures kept { OnOk result (AreKept M.keeps matroids.now growth.new.parts growth.new.kept.items) }
    ensures done { OnOk result ((done : ℕ → Bool) → AreDone n done growth.old.parts growth.old.spanned
        → AreDone n (λ v. done v || is_member v elements.now) growth.new.parts growth.new.spanned) }
    ensures holds { OnOk result (IsSubset (family_union growth.old.parts) (family_union growth.new.parts)) }
{
    for x in elements {
        grow(alloc, matroids, growth, n, *x)?;
    }
    Ok(())
}

/// Disjoint sets, one for each matroid and independent in it, that hold as many elements together as any and then weigh as much, with a
/// cut for each weight that shows it (Schrijver, chapter 42). There is at least one matroid, all are sound, and each has as many elements as
/// there are weights. Elements come by falling weight, each by a search for moves among those that are not yet cut off, which asks for one row
/// at each part for each element that it reaches, by what is kept of the parts; after a path only the parts that changed are kept anew. The
/// only error is want of memory.
pub fn best_union<M: Matroid>(
    alloc: Global,
    matroids: &[M],
    weights: &[Weight],
) -> Result<UnionAnswer, AllocError>
    requires some { 0 < length matroids.now }
    requires few { length matroids.now < 2 ^ 32 }
    requires sound { AreSound M.ground_size M.sound (length weights.now) matroids.now }
    ensures { IfOk result (λ a. IsRightUnion (length weights.now) (map M.indep matroids.now) weights.now a.parts a.levels.items) }
{
    let n = common_size(matroids, weights.len());
    all_lawful(matroids, n);
    let parts = empty_parts(alloc, matroids.len())?;
    let mut growth = growth_from(alloc, matroids, parts, n)?;
    let mut levels = Vec::new(alloc);
    let falling = falling_weights(alloc, weights)?;
    for at in &falling {
        let elements = elements_of(alloc, weights, *at)?;
        grow_by(alloc, matroids, &mut growth, n, elements.as_slice())?;
        let cut = growth.spanned.copy(alloc)?;
        levels.push(Level { at: *at, cut })?;
    }
    Ok(UnionAnswer {
        parts: growth.parts,
        levels,
    })
}
