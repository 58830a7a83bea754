//! Uniform matroids.
ghost use Rattle.std.specs.Prelude.{⊤, ◌≡◌};
ghost use Rattle.mat_count.specs.{Counts.{is_uniform}, UniformLaws.{uniform_laws}};

use mat_laws::{Exchange, Matroid};
use mat_sets::ElemSet;
use std::alloc::{AllocError, Global};

/// The matroid on `count` elements in which a set is independent where it has at most `cap` elements
/// (Schrijver, chapter 39).
#[derive(Debug, Drop)]
pub struct Uniform {
    count: u32,
    cap: u32,
}

impl Uniform {
    /// The uniform matroid of this many elements with this cap, which may be any number.
    pub fn new(count: u32, cap: u32) -> Uniform
        ensures { result ≡ record { count = count; cap = cap } }
    {
        Uniform { count, cap }
    }

    /// The number of elements.
    pub fn count(&self) -> u32
        ensures { result ≡ self.now.count }
    {
        self.count
    }

    /// How many elements an independent set may have.
    pub fn cap(&self) -> u32
        ensures { result ≡ self.now.cap }
    {
        self.cap
    }
}

impl Matroid for Uniform {
    ghost ground_size = { λ m. m.count };

    ghost sound = { λ m. Unit {0} };

    ghost indep = { λ m. is_uniform m.count m.cap };

    type Kept = ();

    ghost keeps = { λ _ _ _. ⊤ };

    ghost laws = { λ m h. uniform_laws m.count m.cap };

    fn size(&self) -> u32 {
        self.count
    }

    fn independent(&self, _alloc: Global, set: &ElemSet) -> Result<bool, AllocError> {
        Ok(set.len() <= self.cap as usize)
    }

    /// An element outside can be added exactly where the set has fewer elements than the cap, and can be exchanged for every
    /// member. No question of independence is asked: the time is that of a copy of the set. The only error is want of memory.
    fn row(
        &self,
        alloc: Global,
        base: &ElemSet,
        _kept: &(),
        _x: u32,
    ) -> Result<Exchange, AllocError> {
        let with = base.copy(alloc)?;
        Ok(Exchange {
            addable: base.len() < self.cap as usize,
            with,
        })
    }

    /// The first elements of the order, as many as the cap. No question of independence is asked: the time is linear in the
    /// order, but for a shift of the set's later members where one is put in before them. The only error is want of memory.
    fn run(&self, alloc: Global, order: &[u32]) -> Result<ElemSet, AllocError> {
        let mut set = ElemSet::new(alloc);
        for x in order {
            if set.len() < self.cap as usize {
                set.add(*x)?;
            }
        }
        Ok(set)
    }

    /// Nothing is kept.
    fn keep(&self, _alloc: Global, _base: &ElemSet) -> Result<(), AllocError> {
        Ok(())
    }

    /// Whether the set has fewer elements than the cap.
    fn adds(
        &self,
        _alloc: Global,
        base: &ElemSet,
        _kept: &(),
        _x: u32,
    ) -> Result<bool, AllocError> {
        Ok(base.len() < self.cap as usize)
    }
}
