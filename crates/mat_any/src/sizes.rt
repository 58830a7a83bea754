//! The number of elements of a matroid of any kind.
ghost use Rattle.std.specs.Prelude.{◌≡◌};
ghost use Rattle.mat_union.specs.UnionsOf.{AreJoined};
ghost use Rattle.mat_any.specs.{Joined.{elements_in, size_in, IsSoundOne}, Trees.{element_count, IsSound}, Views.{tree_of}};

use crate::any::AnyMatroid;
use mat_laws::Matroid;

/// The number of elements of a matroid.
#[cycle(sizes)]
pub(crate) fn size_of(matroid: &AnyMatroid) -> u32
    requires { IsSound (tree_of matroid.now) }
    ensures { result ≡ element_count (tree_of matroid.now) }
{
    match matroid {
        AnyMatroid::Uniform(uniform) => uniform.size(),
        AnyMatroid::Partition(partition) => partition.size(),
        AnyMatroid::Laminar(laminar) => laminar.size(),
        AnyMatroid::Graphic(graphic) => graphic.size(),
        AnyMatroid::Transversal(transversal) => transversal.size(),
        AnyMatroid::Gammoid(gammoid) => gammoid.size(),
        AnyMatroid::Gf2(gf2) => gf2.size(),
        AnyMatroid::Dual(inner) => size_of(inner),
        AnyMatroid::Truncate { inner, .. } => size_of(inner),
        AnyMatroid::Restrict { inner, .. } => size_of(inner),
        AnyMatroid::Contract { inner, .. } => size_of(inner),
        AnyMatroid::Union { parts } => common_size_of(parts),
    }
}

/// The number of elements of the matroids of a union.
#[cycle(sizes)]
pub(crate) fn common_size_of(matroids: &[AnyMatroid]) -> u32
    requires { AreJoined elements_in IsSoundOne matroids.now }
    ensures { result ≡ size_in matroids.now }
{
    size_of(&matroids[0])
}
