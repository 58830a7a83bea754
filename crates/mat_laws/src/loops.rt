//! Loops.
ghost use Rattle.std.specs.Prelude.{◌≡◌, ◌<◌, ◌∷◌, [], not, IfOk};

use crate::matroid::Matroid;
use mat_sets::ElemSet;
use std::alloc::{AllocError, Global};

/// Whether an element is a loop: dependent alone (Schrijver, chapter 39). One question of independence. The only error is want of memory.
pub fn is_loop<M: Matroid>(alloc: Global, m: &M, x: u32) -> Result<bool, AllocError>
    requires sound { M.sound m.now }
    requires below { x < M.ground_size m.now }
    ensures { IfOk result (λ b. b ≡ not (M.indep m.now (x ∷ []))) }
{
    let mut alone = ElemSet::new(alloc);
    alone.add(x)?;
    let independent = m.independent(alloc, &alone)?;
    Ok(!independent)
}
