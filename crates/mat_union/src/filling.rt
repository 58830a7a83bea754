//! Parts that are filled up.
ghost use Rattle.std.specs.Prelude.{◌≡◌, not, map, IfOk};
ghost use Rattle.mat_sets.specs.{Families.{family_union}, Search.{those_below}, Sets.{is_member}};
ghost use Rattle.mat_union.specs.{FilledParts.{IsFilled}, Unions.{AreParts}, UnionsOf.{AreJoined, common_size}};

use crate::best::grow_by;
use crate::growth::{all_lawful, growth_from};
use crate::move_graph::stands;
use mat_laws::Matroid;
use mat_sets::{ElemSet, SetList};
use std::alloc::{AllocError, Global};

/// Disjoint sets, one for each matroid and independent in it, that hold as many elements as any, and a cut that shows it.
#[derive(Debug, Drop)]
pub struct Filled {
    /// The sets.
    pub parts: SetList,
    /// The cut: each set spans it in its matroid, and each element outside it is in a set.
    pub cut: ElemSet,
}

// The elements below n that are in no part.
fn elements_left_out(alloc: Global, parts: &SetList, n: u32) -> Result<ElemSet, AllocError>
    ensures { IfOk result (λ s. s ≡ those_below n (λ x. not (is_member x (family_union parts.now)))) }
{
    let mut set = ElemSet::new(alloc);
    for x in 0..n {
        set.add_if(x, !stands(parts, x))?;
    }
    Ok(set)
}

/// Fills up disjoint sets, one for each matroid and independent in it, until they hold as many elements together as any; no element that
/// was in one is lost. The others come one after the other, each by a search for moves among those that are not yet cut off (Schrijver,
/// chapter 42). The only error is want of memory.
pub fn fill_parts<M: Matroid>(
    alloc: Global,
    matroids: &[M],
    parts: SetList,
) -> Result<Filled, AllocError>
    requires sound { AreJoined M.ground_size M.sound matroids.now }
    requires parts { AreParts (map M.indep matroids.now) parts }
    ensures { IfOk result (λ f. IsFilled (common_size M.ground_size matroids.now) (map M.indep matroids.now) parts f.parts f.cut) }
{
    let n = matroids[0].size();
    let elements = elements_left_out(alloc, &parts, n)?;
    all_lawful(matroids, n);
    let mut growth = growth_from(alloc, matroids, parts, n)?;
    grow_by(alloc, matroids, &mut growth, n, elements.as_slice())?;
    Ok(Filled {
        parts: growth.parts,
        cut: growth.spanned,
    })
}
