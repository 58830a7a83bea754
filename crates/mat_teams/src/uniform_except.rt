//! Uniform matroids in which one set of as many elements as the cap is dependent.

ghost use Rattle.std.specs.Prelude.{⊤, ◌≡◌, ◌≢◌, ◌↔◌, ◌<◌, ◌≤◌, ℕ, List, [], true, length, IfOk};
ghost use Rattle.mat_sets.specs.Sets.{AllBelow, IsSet, union};
ghost use Rattle.mat_teams.specs.{Exceptions.{is_uniform_except}, ExceptionLaws.{uniform_except_laws}};

use mat_count::uniform_sets_mean;
use mat_laws::Matroid;
use mat_sets::ElemSet;
use std::alloc::{AllocError, Global};

/// The matroid on `count` elements in which a set is independent where it has at most as many elements as `circuit`, a set of elements, and is
/// not `circuit` itself: any so many people may go, only not exactly these again (a sparse paving matroid; Oxley, section 2.1).
#[derive(Drop)]
pub(crate) struct UniformExcept {
    count: u32,
    circuit: ElemSet,
}

impl UniformExcept {
    /// The matroid of this many elements whose circuit has these members: elements, of which there is one at least. The only error is want of
    /// memory.
    pub(crate) fn new(
        alloc: Global,
        count: u32,
        members: &[u32],
    ) -> Result<UniformExcept, AllocError>
        requires some { 0 < length members.now }
        requires below { AllBelow count members.now }
        ensures count { IfOk result (λ m. m.count ≡ count) }
        ensures circuit { IfOk result (λ m. m.circuit ≡ union members.now []) }
        ensures set { IfOk result (λ m. IsSet m.count m.circuit) }
        ensures sound { IfOk result (λ m. 0 < length m.circuit) }
    {
        let circuit = ElemSet::from_members(alloc, members)?;
        Ok(UniformExcept { count, circuit })
    }
}

impl Matroid for UniformExcept {
    ghost ground_size = { λ m. m.count };

    ghost sound = { λ m. 0 < length m.circuit };

    ghost indep = { λ m. is_uniform_except m.count m.circuit };

    type Kept = ();

    ghost keeps = { λ _ _ _. ⊤ };

    ghost laws = { λ m some. uniform_except_laws m.count m.circuit some };

    fn size(&self) -> u32 {
        self.count
    }

    fn independent(&self, _alloc: Global, set: &ElemSet) -> Result<bool, AllocError> {
        Ok(set.len() <= self.circuit.len() && *set != self.circuit)
    }

    /// Nothing is kept.
    fn keep(&self, _alloc: Global, _base: &ElemSet) -> Result<(), AllocError> {
        Ok(())
    }
}

/// A list passes the test exactly where it is a set of elements, at most as many as the circuit has, and is not the circuit.
pub(crate) fn uniform_except_means()
    ensures { (n : ℕ) (circuit X : List ℕ) → (is_uniform_except n circuit X ≡ true)
        ↔ (IsSet n X × (length X ≤ length circuit) × (X ≢ circuit)) }
{
    uniform_sets_mean();
}
