//! A union of unions as one union of all their matroids.
ghost use Rattle.std.specs.Prelude.{◌≡◌, ◌++◌, IfOk, IfSome, OnOk};
ghost use Rattle.mat_union.specs.UnionsOf.{AreJoined};
ghost use Rattle.mat_any.specs.{
  FlatUnions.{IsFlat},
  Joined.{trees_in},
  Parts.{trees_seen, IsUnited},
  Trees.{union, element_count, flat_of, flat_trees, IsSound},
  Views.{tree_of},
};

use crate::any::AnyMatroid;
use crate::part::Part;
use mat_union::UnionOf;
use std::alloc::{AllocError, Global};

// The most matroids of a union.
const MOST_MATROIDS: usize = 4_294_967_295;

// The matroid, or, where it is a union, its matroids, and so on within these.
#[cycle(flattening)]
fn push_flat<'a>(matroid: &'a AnyMatroid, all: &mut Vec<Part<'a>>) -> Result<(), AllocError>
    ensures { OnOk result (trees_seen all.new.items ≡ trees_seen all.old.items ++ flat_of (tree_of matroid.now)) }
{
    match matroid {
        AnyMatroid::Union { parts } => push_each(parts, all),
        _ => Ok(all.push(Part { matroid })?),
    }
}

// Those of a list.
#[cycle(flattening)]
fn push_each<'a>(matroids: &'a [AnyMatroid], all: &mut Vec<Part<'a>>) -> Result<(), AllocError>
    ensures { OnOk result (trees_seen all.new.items ≡ trees_seen all.old.items ++ flat_trees (trees_in matroids.now)) }
{
    for matroid in matroids {
        push_flat(matroid, all)?;
    }
    Ok(())
}

// The matroid alone, or the matroids of a union, with those of each union among them in its place.
fn flat_parts<'a>(alloc: Global, matroid: &'a AnyMatroid) -> Result<Vec<Part<'a>>, AllocError>
    ensures { IfOk result (λ v. trees_seen v.items ≡ flat_of (tree_of matroid.now)) }
{
    let mut all = Vec::new(alloc);
    push_flat(matroid, &mut all)?;
    Ok(all)
}

// The union of these.
fn union_of<'a>(parts: Vec<Part<'a>>) -> UnionOf<Part<'a>>
    requires { AreJoined (λ p. element_count (tree_of p.matroid.now)) (λ p. IsSound (tree_of p.matroid.now)) parts.items }
    ensures { result.parts.items ≡ parts.entry.items }
{
    UnionOf::new(parts)
}

// Whether a union is among these.
fn has_inner_union(matroids: &[AnyMatroid]) -> bool {
    for matroid in matroids {
        if let AnyMatroid::Union { .. } = matroid {
            return true;
        }
    }
    false
}

/// The union of all matroids of a union of unions, where there are fewer than 2^32; None of another matroid. The only error is want of memory.
pub(crate) fn united<'a>(
    alloc: Global,
    matroid: &'a AnyMatroid,
) -> Result<Option<UnionOf<Part<'a>>>, AllocError>
    requires sound { IsSound (tree_of matroid.now) }
    ensures { IfOk result (λ found. IfSome found (λ u. IsUnited (tree_of matroid.now) u.parts.items)) }
{
    match matroid {
        AnyMatroid::Union { parts } => united_parts(alloc, matroid, parts),
        _ => Ok(None),
    }
}

// The same of a union of these.
fn united_parts<'a>(
    alloc: Global,
    matroid: &'a AnyMatroid,
    matroids: &[AnyMatroid],
) -> Result<Option<UnionOf<Part<'a>>>, AllocError>
    requires sound { IsSound (tree_of matroid.now) }
    requires node { tree_of matroid.now ≡ union (trees_in matroids.now) }
    ensures { IfOk result (λ found. IfSome found (λ u. IsUnited (tree_of matroid.now) u.parts.items)) }
{
    if !has_inner_union(matroids) {
        return Ok(None);
    }
    let parts = flat_parts(alloc, matroid)?;
    if parts.len() > MOST_MATROIDS {
        return Ok(None);
    }
    Ok(Some(union_of(parts)))
}

/// The union of all matroids of a union of unions, of which something is kept. The only error is want of memory.
pub(crate) fn united_again<'a>(
    alloc: Global,
    matroid: &'a AnyMatroid,
) -> Result<UnionOf<Part<'a>>, AllocError>
    requires flat { IsFlat (tree_of matroid.now) }
    ensures { IfOk result (λ u. IsUnited (tree_of matroid.now) u.parts.items) }
{
    let parts = flat_parts(alloc, matroid)?;
    Ok(union_of(parts))
}
