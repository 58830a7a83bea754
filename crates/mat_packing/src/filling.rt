//! Copies of one matroid, whose parts are filled up.
ghost use Rattle.std.specs.Prelude.{◌≡◌, ◌≢◌, ◌<◌, ℕ, true, false, length, All, IfOk};
ghost use Rattle.mat_sets.specs.Families.{AreDisjoint};
ghost use Rattle.mat_packing.specs.FilledCopies.{AreFilledCopies};
ghost use Rattle.mat_union.specs.Unions.{part_at};

use mat_laws::{Matroid, grow_base};
use mat_sets::{ElemSet, SetList};
use mat_union::{Filled, fill_parts};
use std::alloc::{AllocError, Global};

// So many references to one matroid.
fn references<'a, M: Matroid>(alloc: Global, m: &'a M, count: u32) -> Result<Vec<&'a M>, AllocError>
    ensures long { IfOk result (λ v. length v.items ≡ count) }
    ensures same { IfOk result (λ v. All (λ r. r.now ≡ m.now) v.items) }
{
    let mut copies = Vec::new(alloc);
    for _ in 0..count {
        copies.push(m)?;
    }
    Ok(copies)
}

// So many disjoint independent sets, each a maximal one among the elements that those before it left.
fn first_sets<M: Matroid>(alloc: Global, m: &M, count: u32) -> Result<SetList, AllocError>
    requires { M.sound m.now }
    ensures long { IfOk result (λ sets. length sets ≡ count) }
    ensures disjoint { IfOk result (λ sets. AreDisjoint sets) }
    ensures passes { IfOk result (λ sets. (i : ℕ) → i < length sets → M.indep m.now (part_at sets i) ≡ true) }
{
    m.lawful();
    let none = ElemSet::new(alloc);
    let mut rest = ElemSet::all_below(alloc, m.size())?;
    let mut sets = Vec::new(alloc);
    for _ in 0..count {
        let set = grow_base(alloc, m, &none, &rest)?;
        rest = rest.minus(alloc, &set)?;
        sets.push(set)?;
    }
    Ok(SetList::new(sets))
}

/// So many disjoint independent sets that hold as many elements together as any, and a cut that shows it: first each takes what it can of
/// the elements that are left, and then they are filled up.
pub(crate) fn fill_copies<M: Matroid>(
    alloc: Global,
    m: &M,
    count: u32,
) -> Result<Filled, AllocError>
    requires sound { M.sound m.now }
    ensures { IfOk result (λ f. AreFilledCopies (M.ground_size m.now) (M.indep m.now) count f.parts f.cut) }
{
    m.lawful();
    let n = m.size();
    let parts = first_sets(alloc, m, count)?;
    if count == 0 {
        let cut = ElemSet::all_below(alloc, n)?;
        return Ok(Filled { parts, cut });
    }
    let copies = references(alloc, m, count)?;
    fill_parts(alloc, &copies, parts)
}

/// Whether each set has so many members.
pub(crate) fn are_full(sets: &SetList, size: u32) -> bool
    ensures full { result ≡ true → (i : ℕ) → i < length sets.now → length (part_at sets.now i) ≡ size }
    ensures other { result ≡ false → (i : ℕ) × (i < length sets.now) × (length (part_at sets.now i) ≢ size) }
{
    for i in 0..sets.len() {
        if sets.get(i).len() != size as usize {
            return false;
        }
    }
    true
}
