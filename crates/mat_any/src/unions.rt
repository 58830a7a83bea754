//! Whether a matroid is made of a union.

ghost use Rattle.std.specs.Prelude.{◌≡◌};
ghost use Rattle.mat_any.specs.{Trees.{has_union}, Views.{tree_of}};

use crate::any::AnyMatroid;

/// Whether a union stands within the matroid: then each row of its exchanges takes a search between the parts of that union, unless a dual looks
/// it up in columns, which take such searches when they are made.
pub fn has_union(matroid: &AnyMatroid) -> bool
    ensures { result ≡ has_union (tree_of matroid.now) }
{
    match matroid {
        AnyMatroid::Dual(inner) => has_union(inner),
        AnyMatroid::Truncate { inner, .. } => has_union(inner),
        AnyMatroid::Restrict { inner, .. } => has_union(inner),
        AnyMatroid::Contract { inner, .. } => has_union(inner),
        AnyMatroid::Union { .. } => true,
        _ => false,
    }
}
