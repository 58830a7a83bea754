//! Matroids of which a row of exchanges may take longer to find than a thread takes to start.

ghost use Rattle.std.specs.{Prelude.{◌≡◌, ◌||◌, nat_le, length}, List.{list_any}};
ghost use Rattle.mat_any.specs.Views.{tree_of};
ghost use Rattle.mat_solve.specs.CostlyRows.{has_costly_rows, many_matroids};

use mat_any::AnyMatroid;

// The fewest matroids of a union between which a search takes so long.
const MANY_MATROIDS: usize = 16;

/// Whether a row may take so long: one that is found by a search of paths or of a matching, or between many matroids, or between some of which
/// one has such rows. Those of a dual are looked up.
#[cycle(judging)]
pub(crate) fn has_costly_rows(matroid: &AnyMatroid) -> bool
    ensures { result ≡ has_costly_rows (tree_of matroid.now) }
{
    match matroid {
        AnyMatroid::Transversal(_) | AnyMatroid::Gammoid(_) => true,
        AnyMatroid::Truncate { inner, .. } => has_costly_rows(inner),
        AnyMatroid::Restrict { inner, .. } => has_costly_rows(inner),
        AnyMatroid::Contract { inner, .. } => has_costly_rows(inner),
        AnyMatroid::Union { parts } => are_many_or_costly(parts),
        _ => false,
    }
}

// Whether there are many of these, or the rows of one of them may.
#[cycle(judging)]
fn are_many_or_costly(matroids: &[AnyMatroid]) -> bool
    ensures { result ≡ (nat_le many_matroids (length matroids.now) || list_any (λ m. has_costly_rows (tree_of m)) matroids.now) }
{
    matroids.len() >= MANY_MATROIDS || some_have_costly_rows(matroids)
}

// Whether the rows of one of these may.
#[cycle(judging)]
fn some_have_costly_rows(matroids: &[AnyMatroid]) -> bool
    ensures { result ≡ list_any (λ m. has_costly_rows (tree_of m)) matroids.now }
{
    for matroid in matroids {
        if has_costly_rows(matroid) {
            return true;
        }
    }
    false
}
