//! Parts with no elements.
ghost use Rattle.std.specs.Prelude.{◌≡◌, ◌<◌, ℕ, [], length, IfOk};
ghost use Rattle.mat_union.specs.Unions.{part_at};

use mat_sets::{ElemSet, SetList};
use std::alloc::{AllocError, Global};

/// So many empty sets. The only error is want of memory.
pub(crate) fn empty_parts(alloc: Global, count: usize) -> Result<SetList, AllocError>
    ensures long { IfOk result (λ parts. length parts ≡ count) }
    ensures empty { IfOk result (λ parts. (i : ℕ) → part_at parts i ≡ []) }
{
    let mut parts = Vec::new(alloc);
    for _ in 0..count {
        parts.push(ElemSet::new(alloc))?;
    }
    Ok(SetList::new(parts))
}

/// So many sets, of which the first is given and the others are empty. The only error is want of memory.
pub fn first_parts(alloc: Global, first: ElemSet, count: usize) -> Result<SetList, AllocError>
    requires { 0 < count }
    ensures long { IfOk result (λ parts. length parts ≡ count) }
    ensures first { IfOk result (λ parts. part_at parts 0 ≡ first) }
    ensures others { IfOk result (λ parts. (i : ℕ) → 0 < i → part_at parts i ≡ []) }
{
    let mut parts = Vec::new(alloc);
    parts.push(first)?;
    for _ in 1..count {
        parts.push(ElemSet::new(alloc))?;
    }
    Ok(SetList::new(parts))
}
